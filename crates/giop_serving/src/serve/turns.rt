//! A turn of `serve`: the peer is read once, and what waits for an answer is answered. Its meaning
//! is `Goes` in specs/Serve/Serving.antt: change both.
ghost use Rattle.std.specs.Prelude.{◌≡◌, IfOk, None};
ghost use Rattle.giop_end.specs.Ends.View.{IsActedOn, IsTurned};
ghost use Rattle.giop_serving.specs.Serve.Serving.{AnswersAll, AnswersOne, GoesOver, desk_at, served_of};
ghost use Rattle.giop_commands.specs.Session.Steps.{Upto};
ghost use Rattle.giop_commands.specs.Session.Traffic.{traffic};

use crate::serve::answering::{Due, due_to};
use crate::serve::given::Serving;
use crate::serve::in_turn::Passed;
use crate::serve::reply::{Unanswered, reply_to};
use giop_commands::session::given::Pipes;
use giop_commands::session::sending::send_all;
use giop_commands::session::{SessionTurn, goes_on, told_of};
use giop_end::{ServerEnd, SessionFault};
use giop_show::failure::Failure;
use std::alloc::Global;
use std::io::{Read, Write};

/// Takes a turn, and answers what waits for an answer, unless the input ends or the end fails.
/// Nothing is printed. An answer that can't be sent ends the session.
pub fn turn_of_answers<R: Read, W: Write, O: Write>(
    alloc: Global,
    end: &mut ServerEnd<'_>,
    serving: Serving<'_>,
    passed: &mut Passed,
    pipes: &mut Pipes<R, W, O>,
) -> Result<SessionTurn, Failure>
    requires { end.old.interface.now ≡ serving.interface.now }
    ensures goes { IfOk result (λ turn. GoesOver serving.entry end.old end.new passed.old
        passed.new turn (traffic R.remaining W.contents O.contents pipes.old pipes.new)) }
    ensures sound { IfOk result (λ turn. turn ≡ SessionTurn.GoesOn → end.new.fault ≡ None) }
    ensures others { IsTurned end.old end.new }
    ensures out { pipes.new.out ≡ pipes.old.out }
{
    if !goes_on(end, &mut pipes.reader, &mut pipes.writer)? {
        return Ok(SessionTurn::Ends(None));
    }
    if let Some(fault) = answer_all(alloc, end, serving, passed)? {
        return Ok(SessionTurn::Ends(Some(fault)));
    }
    Ok(SessionTurn::GoesOn)
}

// Answers all that waits for an answer, and puts out every piece. Returns the fault of what could
// not be sent, at which it stops.
fn answer_all(
    alloc: Global,
    end: &mut ServerEnd<'_>,
    serving: Serving<'_>,
    passed: &mut Passed,
) -> Result<Option<SessionFault>, Failure>
    requires { end.old.interface.now ≡ serving.interface.now }
    ensures answers { IfOk result (λ refused. AnswersAll (served_of serving.entry) end.old.limits
        end.old.fault (desk_at end.old passed.old) refused (desk_at end.new passed.new)) }
    ensures others { IsActedOn end.old end.new }
{
    let ids = end.ids(alloc)?;
    if let Some(fault) = answer_each(alloc, end, serving, passed, ids.as_slice())? {
        return Ok(Some(fault));
    }
    send_all(alloc, end)
}

// Answers what is stored for each of these ids. Returns the fault of an answer that could not be
// sent, at which it stops.
fn answer_each(
    alloc: Global,
    end: &mut ServerEnd<'_>,
    serving: Serving<'_>,
    passed: &mut Passed,
    ids: &[u32],
) -> Result<Option<SessionFault>, Failure>
    requires { end.old.interface.now ≡ serving.interface.now }
    ensures answers { IfOk result (λ refused. Upto (AnswersOne (served_of serving.entry)
        end.old.limits end.old.fault) ids.now (desk_at end.old passed.old) refused
        (desk_at end.new passed.new)) }
    ensures others { IsActedOn end.old end.new }
{
    'ids: for id in ids {
        if let Some(fault) = answer(alloc, end, serving, passed, *id)? {
            return Ok(Some(fault));
        }
    }
    Ok(None)
}

// Answers what is stored for an id, where something is due to it. Returns the fault of an answer
// that could not be sent.
fn answer(
    alloc: Global,
    end: &mut ServerEnd<'_>,
    serving: Serving<'_>,
    passed: &mut Passed,
    id: u32,
) -> Result<Option<SessionFault>, Failure>
    requires { end.old.interface.now ≡ serving.interface.now }
    ensures answers { IfOk result (λ refused. AnswersOne (served_of serving.entry) end.old.limits
        end.old.fault id (desk_at end.old passed.old) refused (desk_at end.new passed.new)) }
    ensures others { IsActedOn end.old end.new }
{
    let Some(entry) = end.entry(id) else {
        return Ok(None);
    };
    match due_to(serving.objects, entry) {
        Due::Nothing => Ok(None),
        Due::Locate { here } => told_of(end.answer_locate(id, here, serving.form.order)),
        Due::Reply { version, answer } => {
            let to = Unanswered {
                id,
                stored: entry,
                version,
                answer,
            };
            let reply = reply_to(alloc, serving, passed, to)?;
            passed.pass(alloc, serving.objects, entry, answer)?;
            told_of(end.answer(reply, serving.form))
        }
    }
}
