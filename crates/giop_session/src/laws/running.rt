//! An end is made and given a list of inputs: `run_server` and `run_client`, whose contracts are
//! the headline (docs/HEADLINE.md) of functions that run. Both say the same, each of a run of its
//! side, `server_run` or `client_run`: what is said of a run is specs/Runs/SideRuns.antt, and what
//! it keeps apart specs/Runs/Fits.antt.
ghost use Rattle.std.specs.Prelude.{◌≡◌, ◌≢◌, ◌≤◌, ◌^◌, ◌↔◌, Err, IfOk, IsErr};
ghost use Rattle.giop_session.specs.declared.laws.inputs.Answered.TheVariants.{Refused};
ghost use Rattle.giop_end.specs.declared.session_fault.SessionFault.TheVariants.{NoMemory};
ghost use Rattle.giop_session.specs.Acts.PutOut.{ArePutOut, is_of_client, is_of_server};
ghost use Rattle.giop_end.specs.Ends.View.{IsDriven, state_of};
ghost use Rattle.giop_end.specs.Hearing.Heard.{side_of};
ghost use Rattle.giop_session.specs.Runs.ClientRuns.{client_run};
ghost use Rattle.giop_session.specs.Runs.Driven.{answer_of, Closes, Feeds, InTurn, IsGiven, TakesOut};
ghost use Rattle.giop_session.specs.Runs.Fits.{KeepsCallsApart};
ghost use Rattle.giop_session.specs.Runs.ServerRuns.{server_run};
ghost use Rattle.giop_session.specs.Runs.SideRuns.{SideRuns};

use super::inputs::{Answered, ClientInput, ServerInput};
use giop_calls::{ClientEntry, ClientRule, ServerEntry, ServerRule};
use giop_end::{ClientEnd, End, Hearing, Limits, ServerEnd, SessionFault};
use giop_types::Interface;
use std::alloc::{AllocError, Global};

/// Makes a server's end and gives it these inputs, one after another: the answers are one for each,
/// in their order. A run continues after a refusal, also after one that fails the end, which then
/// refuses all that is left.
///
/// Let what is given fit the end: the octets are whole messages of kinds that a client sends, each
/// names an id, none closes the connection or is an error, no limit is met, and a new end that is
/// given the messages and acts of one id alone refuses none, whichever id it is. Then this end
/// refuses nothing, and what it holds of each id and answered for it is what the id alone came to.
///
/// Where the end refuses nothing, and isn't closed, each id's entry and answers are those of what
/// was said of that one call. It makes no difference in which messages, Fragments, byte orders and
/// reads this came, and what lay between.
///
/// Let the Requests and LocateRequests that are fed have at most as many distinct ids as the limit
/// `calls`, and all pieces of fragmented messages at most as many octets as the limit `gathered`.
/// Then no input is refused as TooManyCalls or GatherFull, in whatever order all of it comes.
///
/// What is outgoing at the end of a run is whole messages, each of a kind that a server sends.
///
/// `alloc` gives the memory of the end and of the answers. Where it is out of memory, AllocError is
/// returned in place of both.
pub fn run_server<'a>(
    alloc: Global,
    interface: &'a Interface,
    limits: Limits,
    inputs: Vec<ServerInput>,
) -> Result<(ServerEnd<'a>, Vec<Answered<ServerEntry>>), AllocError>
    requires { limits.gathered ≤ 2 ^ 62 }
    ensures value { IfOk result (λ run. SideRuns (server_run interface.now) limits inputs.items
        run.1.items (state_of run.0)) }
    ensures same { IfOk result (λ run. (run.0.interface.now ≡ interface.now)
        × (run.0.limits ≡ limits)) }
    ensures apart { IfOk result (λ run. KeepsCallsApart (server_run interface.now) limits
        inputs.items run.1.items (state_of run.0)) }
    ensures put_out { IfOk result (λ run. ArePutOut is_of_server run.0.outgoing) }
{
    let mut server: ServerEnd<'a> = End::<ServerRule>::new(alloc, interface, limits);
    let answers = take_all(alloc, &mut server, inputs)?;
    Ok((server, answers))
}

/// Makes a client's end and gives it these inputs, one after another: the answers are one for each,
/// in their order. All that `run_server` says of a run is said of this one, too, of messages of
/// kinds that a server sends. Ids count towards the limit `calls` where the inputs call or locate
/// under them.
///
/// What is outgoing at the end of a run is whole messages, each of a kind that a client sends.
///
/// `alloc` gives the memory of the end and of the answers. Where it is out of memory, AllocError is
/// returned in place of both.
pub fn run_client<'a>(
    alloc: Global,
    interface: &'a Interface,
    limits: Limits,
    inputs: Vec<ClientInput>,
) -> Result<(ClientEnd<'a>, Vec<Answered<ClientEntry>>), AllocError>
    requires { limits.gathered ≤ 2 ^ 62 }
    ensures value { IfOk result (λ run. SideRuns (client_run interface.now) limits inputs.items
        run.1.items (state_of run.0)) }
    ensures same { IfOk result (λ run. (run.0.interface.now ≡ interface.now)
        × (run.0.limits ≡ limits)) }
    ensures apart { IfOk result (λ run. KeepsCallsApart (client_run interface.now) limits
        inputs.items run.1.items (state_of run.0)) }
    ensures put_out { IfOk result (λ run. ArePutOut is_of_client run.0.outgoing) }
{
    let mut client: ClientEnd<'a> = End::<ClientRule>::new(alloc, interface, limits);
    let answers = take_all(alloc, &mut client, inputs)?;
    Ok((client, answers))
}

// What takes inputs and answers each: an end, or a world of two ends.
pub(super) trait Driven {
    ghost use Rattle.std.specs.Prelude.{IfOk};

    type Input: Drop;

    type Answer: Drop;

    ghost is_given: { Self → Self.Input → Self.Answer → Self → Type 0 };

    // Takes an input, and answers it. AllocError where it is out of memory.
    fn take_input(&mut self, input: Self::Input) -> Result<Self::Answer, AllocError>
        ensures { IfOk result (λ answered. is_given self.old input answered self.new) };
}

impl<'a> Driven for End<'a, ServerRule> {
    ghost use Rattle.std.specs.Prelude.{◌≡◌};
    ghost use Rattle.giop_session.specs.Runs.ServerRuns.{server_run};
    ghost use Rattle.giop_session.specs.Runs.SideRuns.{SideIsGiven};

    type Input = ServerInput;

    type Answer = Answered<ServerEntry>;

    ghost is_given = { λ end input answered after.
        SideIsGiven (server_run end.interface.now) end.limits (state_of end) input answered
        (state_of after) × IsDriven end after };

    fn take_input(&mut self, input: ServerInput) -> Result<Answered<ServerEntry>, AllocError> {
        match input {
            ServerInput::Feed(octets) => feed_to(self, octets.as_slice()),
            ServerInput::Answer { reply, form } => answer_of(self.answer(reply, form.form)),
            ServerInput::AnswerLocate { id, here, order } => {
                answer_of(self.answer_locate(id, here, order))
            }
            ServerInput::Send(id) => answer_of(self.send(id)),
            ServerInput::Take(id) => take_from(self, id),
            ServerInput::Close => close_end(self),
        }
    }
}

impl<'a> Driven for End<'a, ClientRule> {
    ghost use Rattle.std.specs.Prelude.{◌≡◌};
    ghost use Rattle.giop_session.specs.Runs.ClientRuns.{client_run};
    ghost use Rattle.giop_session.specs.Runs.SideRuns.{SideIsGiven};

    type Input = ClientInput;

    type Answer = Answered<ClientEntry>;

    ghost is_given = { λ end input answered after.
        SideIsGiven (client_run end.interface.now) end.limits (state_of end) input answered
        (state_of after) × IsDriven end after };

    fn take_input(&mut self, input: ClientInput) -> Result<Answered<ClientEntry>, AllocError> {
        match input {
            ClientInput::Feed(octets) => feed_to(self, octets.as_slice()),
            ClientInput::Call { request, form } => answer_of(self.call(request, form.form)),
            ClientInput::Locate { request, form } => answer_of(self.locate(request, form.form)),
            ClientInput::Cancel { id, order } => answer_of(self.cancel(id, order)),
            ClientInput::Send(id) => answer_of(self.send(id)),
            ClientInput::Take(id) => take_from(self, id),
            ClientInput::Close => close_end(self),
        }
    }
}

// Gives inputs, one after another.
pub(super) fn take_all<D: Driven>(
    alloc: Global,
    driven: &mut D,
    inputs: Vec<D::Input>,
) -> Result<Vec<D::Answer>, AllocError>
    ensures { IfOk result (λ answers.
        InTurn D.is_given driven.old inputs.items answers.items driven.new) }
{
    let mut answers = Vec::new(alloc);
    for input in inputs {
        answers.push(driven.take_input(input)?)?;
    }
    Ok(answers)
}

// Octets are fed to an end, which answers this.
pub(super) fn feed_to<R: Hearing>(
    end: &mut End<'_, R>,
    octets: &[u8],
) -> Result<Answered<R::Entry>, AllocError>
    ensures given { IfOk result (λ answered. IsGiven (side_of R.Hearing end.old.interface.now)
        (Feeds octets.now) (state_of end.old) answered (state_of end.new)) }
    ensures others { IsDriven end.old end.new }
{
    answer_of(end.feed(octets))
}

// An entry is taken out of an end, where its call is over, and is the answer.
fn take_from<R: Hearing>(end: &mut End<'_, R>, id: u32) -> Result<Answered<R::Entry>, AllocError>
    ensures given { IfOk result (λ answered. IsGiven (side_of R.Hearing end.old.interface.now)
        (TakesOut id) (state_of end.old) answered (state_of end.new)) }
    ensures others { IsDriven end.old end.new }
{
    match end.take(id) {
        Ok(entry) => Ok(Answered::Taken(entry)),
        Err(SessionFault::NoMemory) => Err(AllocError),
        Err(why) => Ok(Answered::Refused(why)),
    }
}

// An end is closed, and answers this.
fn close_end<R: Hearing>(end: &mut End<'_, R>) -> Result<Answered<R::Entry>, AllocError>
    ensures given { IfOk result (λ answered. IsGiven (side_of R.Hearing end.old.interface.now)
        Closes (state_of end.old) answered (state_of end.new)) }
    ensures others { IsDriven end.old end.new }
{
    answer_of(end.close())
}

// What is answered to an input, by what the call for it returned. AllocError where that was out of
// memory.
fn answer_of<E>(outcome: Result<(), SessionFault>) -> Result<Answered<E>, AllocError>
    ensures value { IfOk result (λ answered. (answered ≡ answer_of outcome)
        × (answered ≢ Refused NoMemory)) }
    ensures err { IsErr result ↔ (outcome ≡ Err NoMemory) }
{
    match outcome {
        Ok(()) => Ok(Answered::Done),
        Err(SessionFault::NoMemory) => Err(AllocError),
        Err(why) => Ok(Answered::Refused(why)),
    }
}
