//! What each message does to the flow of its id, where that lies. Its meaning is specs/Effects.antt:
//! change both.
ghost use Rattle.std.specs.Prelude.{◌≡◌, ◌≤◌, ◌^◌, None, Some, false, true, length, IfOk, OnOk, option_copied};
ghost use Rattle.giop_trace.specs.Effects.{answered_by, answers, answers_call, answers_on, asked_by, asks, asks_on, cancels, continues_in, effect, effect_left, extended, goes_on, has_place, is_stray, lone};
ghost use Rattle.giop_trace.specs.Flows.{continues, is_oneway, is_over, is_told, is_whole, joined, same_order};

use crate::{Direction, Flow, Heard};
use giop_cdr::{CdrIn, Order, SliceOctets};
use giop_msg::{Kind, Msg, RequestHead, Version};
use std::alloc::AllocError;

// The most octets of a message that are read.
const MOST: usize = 1 << 62;

/// A message by itself.
pub fn lone(direction: Direction, message: Msg) -> Flow
    ensures { result ≡ lone direction message }
{
    match direction {
        Direction::Client => asked_by(message),
        Direction::Server => answered_by(message),
    }
}

/// Whether all pieces of a message came.
pub fn is_whole(message: &Option<Msg>) -> bool
    ensures { result ≡ is_whole message.now }
{
    match message {
        Some(message) => !message.more,
        None => false,
    }
}

/// Whether a message of a direction that is no Fragment has a place in a call, by its kind.
#[inline(always)]
pub fn has_place(direction: Direction, kind: Kind) -> bool
    ensures { result ≡ has_place direction kind }
{
    match direction {
        Direction::Client => match kind {
            Kind::Request | Kind::LocateRequest | Kind::CancelRequest => true,
            _ => false,
        },
        Direction::Server => match kind {
            Kind::Reply | Kind::LocateReply => true,
            _ => false,
        },
    }
}

/// Whether a Fragment of a direction continues what stands under its id.
pub fn continues_in(direction: Direction, entry: Option<&Flow>, fragment: &Msg) -> bool
    ensures { result ≡ continues_in direction (option_copied entry.entry) fragment.now }
{
    match (direction, entry) {
        (Direction::Client, Some(flow)) => continues(&flow.asked, fragment),
        (Direction::Server, Some(flow)) => continues(&flow.answer, fragment),
        (_, None) => false,
    }
}

/// What a message that has a place does to the flow that stands under its id, which is the one that
/// `told` has as `over`, and is changed there. Returns whether what stands there then goes on; else
/// it is over, if there is one. `alone` says that the client is heard alone.
///
/// It is refused only where it is out of memory, or where a message would have more than 2^62
/// octets; what is told is then no matter.
#[inline(always)]
pub fn step(
    alone: bool,
    direction: Direction,
    told: &mut Heard,
    message: Msg,
) -> Result<bool, AllocError>
    requires earlier { told.old.earlier ≡ None }
    requires place { is_stray direction told.old.over message.kind message ≡ false }
    ensures value { IfOk result (λ stays. effect_left stays told.new
        ≡ effect alone direction told.old.over message) }
    ensures id { OnOk result (told.new.id ≡ told.old.id) }
{
    match direction {
        Direction::Client => asks(alone, told, message),
        Direction::Server => answers(alone, told, message),
    }
}

#[inline(always)]
fn asks(alone: bool, told: &mut Heard, message: Msg) -> Result<bool, AllocError>
    requires earlier { told.old.earlier ≡ None }
    requires place { is_stray Direction.Client told.old.over message.kind message ≡ false }
    ensures value { IfOk result (λ stays. effect_left stays told.new
        ≡ asks alone told.old.over message.kind message) }
    ensures id { OnOk result (told.new.id ≡ told.old.id) }
{
    match message.kind {
        Kind::CancelRequest => Ok(cancels(told)),
        Kind::Fragment => asks_on(alone, told, message),
        _ => begins(alone, told, asked_by(message)),
    }
}

#[inline(always)]
fn answers(alone: bool, told: &mut Heard, message: Msg) -> Result<bool, AllocError>
    requires earlier { told.old.earlier ≡ None }
    requires place { is_stray Direction.Server told.old.over message.kind message ≡ false }
    ensures value { IfOk result (λ stays. effect_left stays told.new
        ≡ answers alone told.old.over message.kind message) }
    ensures id { OnOk result (told.new.id ≡ told.old.id) }
{
    match message.kind {
        Kind::Fragment => answers_on(alone, told, message),
        _ => answers_call(alone, told, message),
    }
}

/// A call of which a message of the client came alone.
#[inline(always)]
pub fn asked_by(message: Msg) -> Flow
    ensures { result ≡ asked_by message }
{
    Flow {
        asked: Some(message),
        answer: None,
        cancelled: false,
    }
}

#[inline(always)]
fn answered_by(message: Msg) -> Flow
    ensures { result ≡ answered_by message }
{
    Flow {
        asked: None,
        answer: Some(message),
        cancelled: false,
    }
}

// A flow begins; what stood under the id is the one before it.
#[inline(always)]
fn begins(alone: bool, told: &mut Heard, flow: Flow) -> Result<bool, AllocError>
    requires { told.old.earlier ≡ None }
    ensures value { IfOk result (λ stays. effect_left stays told.new
        ≡ goes_on alone told.old.over flow) }
    ensures id { OnOk result (told.new.id ≡ told.old.id) }
{
    let stays = !is_over(alone, &flow)?;
    told.earlier = told.over.take();
    told.over = Some(flow);
    Ok(stays)
}

// Whether the flow that stands there goes on.
#[inline(always)]
fn stays(alone: bool, told: &Heard) -> Result<bool, AllocError>
    requires { told.now.earlier ≡ None }
    ensures { (flow : Flow) → told.now.over ≡ Some flow
        → IfOk result (λ stays. effect_left stays told.now ≡ goes_on alone None flow) }
{
    match &told.over {
        Some(flow) => Ok(!is_over(alone, flow)?),
        None => Ok(true),
    }
}

fn asks_on(alone: bool, told: &mut Heard, fragment: Msg) -> Result<bool, AllocError>
    requires earlier { told.old.earlier ≡ None }
    requires place { continues_in Direction.Client told.old.over fragment ≡ true }
    ensures value { IfOk result (λ stays. effect_left stays told.new
        ≡ asks_on alone told.old.over fragment) }
    ensures id { OnOk result (told.new.id ≡ told.old.id) }
{
    if let Some(flow) = &mut told.over {
        extend(&mut flow.asked, &fragment)?;
    }
    stays(alone, told)
}

fn answers_on(alone: bool, told: &mut Heard, fragment: Msg) -> Result<bool, AllocError>
    requires earlier { told.old.earlier ≡ None }
    requires place { continues_in Direction.Server told.old.over fragment ≡ true }
    ensures value { IfOk result (λ stays. effect_left stays told.new
        ≡ answers_on alone told.old.over fragment) }
    ensures id { OnOk result (told.new.id ≡ told.old.id) }
{
    if let Some(flow) = &mut told.over {
        extend(&mut flow.answer, &fragment)?;
    }
    stays(alone, told)
}

// Returns whether the flow goes on.
fn cancels(told: &mut Heard) -> bool
    requires { told.old.earlier ≡ None }
    ensures value { effect_left result told.new ≡ cancels told.old.over }
    ensures id { told.new.id ≡ told.old.id }
{
    match &mut told.over {
        Some(flow) => {
            flow.cancelled = true;
            is_whole(&flow.asked)
        }
        None => true,
    }
}

#[inline(always)]
fn answers_call(alone: bool, told: &mut Heard, message: Msg) -> Result<bool, AllocError>
    requires { told.old.earlier ≡ None }
    ensures value { IfOk result (λ stays. effect_left stays told.new
        ≡ answers_call alone told.old.over message) }
    ensures id { OnOk result (told.new.id ≡ told.old.id) }
{
    match &mut told.over {
        Some(flow) if flow.answer.is_none() => flow.answer = Some(message),
        _ => return begins(alone, told, answered_by(message)),
    }
    stays(alone, told)
}

// Whether a Fragment continues a message: more of it is to come, and in that byte order.
fn continues(message: &Option<Msg>, fragment: &Msg) -> bool
    ensures { result ≡ continues message.now fragment.now }
{
    match message {
        Some(message) => message.more && same_order(message.order, fragment.order),
        None => false,
    }
}

fn same_order(one: Order, other: Order) -> bool
    ensures { result ≡ same_order one other }
{
    match (one, other) {
        (Order::Big, Order::Big) => true,
        (Order::Little, Order::Little) => true,
        (Order::Big, Order::Little) => false,
        (Order::Little, Order::Big) => false,
    }
}

// Puts a Fragment behind a message, where there is one.
fn extend(message: &mut Option<Msg>, fragment: &Msg) -> Result<(), AllocError>
    ensures { OnOk result (message.new ≡ extended message.old fragment.now) }
{
    match message {
        Some(message) => join(message, fragment),
        None => Ok(()),
    }
}

// Puts the octets of a Fragment behind those of a message.
fn join(message: &mut Msg, fragment: &Msg) -> Result<(), AllocError>
    ensures { OnOk result (message.new ≡ joined message.old fragment.now) }
{
    message.more = fragment.more;
    if let Some(octets) = fragment.payload.as_slice().get(4..) {
        message.payload.extend_from_slice(octets)?;
    }
    Ok(())
}

#[inline(always)]
fn is_over(alone: bool, flow: &Flow) -> Result<bool, AllocError>
    ensures { IfOk result (λ over. over ≡ is_over alone flow.now) }
{
    match &flow.answer {
        Some(answer) => Ok(!answer.more),
        None => is_told(alone, &flow.asked),
    }
}

#[inline(always)]
fn is_told(alone: bool, asked: &Option<Msg>) -> Result<bool, AllocError>
    ensures { IfOk result (λ told. told ≡ is_told alone asked.now) }
{
    match asked {
        Some(asked) if asked.more => Ok(false),
        Some(asked) => Ok(is_oneway(asked)? || alone),
        None => Ok(false),
    }
}

// Whether no reply is expected to a message.
#[inline(always)]
fn is_oneway(message: &Msg) -> Result<bool, AllocError>
    ensures { IfOk result (λ oneway. oneway ≡ is_oneway message.now.kind message.now) }
{
    match message.kind {
        Kind::Request if message.payload.len() > MOST => Err(AllocError),
        Kind::Request => Ok(is_oneway_request(message)),
        _ => Ok(false),
    }
}

#[inline(always)]
fn is_oneway_request(message: &Msg) -> bool
    requires { length message.now.payload ≤ 2 ^ 62 }
    ensures { result ≡ is_oneway Kind.Request message.now }
{
    !asks_for_reply(message) && is_oneway_by_head(message)
}

/// Whether the flags of a Request of 1.2 ask for a reply. They lie behind its id, so most Requests
/// are known to be no oneway without the rest of their heads.
#[inline(always)]
pub fn asks_for_reply(message: &Msg) -> bool
    requires { length message.now.payload ≤ 2 ^ 62 }
    ensures { result ≡ true → is_oneway Kind.Request message.now ≡ false }
{
    match message.version {
        Version::V10 | Version::V11 => false,
        Version::V12 => has_flags_behind_id(message),
    }
}

// Whether an octet other than 0 stands behind an unsigned long at the front of a message.
#[inline(always)]
fn has_flags_behind_id(message: &Msg) -> bool
    requires { length message.now.payload ≤ 2 ^ 62 }
    ensures { message.now.version ≡ Version.V12 → result ≡ true
        → is_oneway Kind.Request message.now ≡ false }
{
    let joined = SliceOctets::new(message.payload.as_slice());
    let mut input = CdrIn::new(&joined, message.order, 12);
    let (Ok(_), Ok(flags)) = (input.read_ulong(), input.read_octet()) else {
        return false;
    };
    flags != 0
}

fn is_oneway_by_head(message: &Msg) -> bool
    requires { length message.now.payload ≤ 2 ^ 62 }
    ensures { result ≡ is_oneway Kind.Request message.now }
{
    let joined = SliceOctets::new(message.payload.as_slice());
    match RequestHead::view(&joined, message.version, message.order) {
        Ok((head, _)) => head.flags == 0,
        Err(_) => false,
    }
}
