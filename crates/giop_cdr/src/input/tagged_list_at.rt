//! Sequences of tagged octets where they lie: service contexts (CORBA 3.3 Part 2, 7.7), profiles
//! and components (7.6.2). Each value is judged as the list is viewed, so that walking the list
//! never fails.
ghost use Rattle.std.specs.Prelude.{◌≡◌, ◌≢◌, ◌==◌, ◌++◌, ◌∷◌, [], length, drop, IfOk, IfSome, IfNone};
ghost use Rattle.giop_cdr.specs.Reading.Values.{items_at, sequence_at};
ghost use Rattle.giop_cdr.specs.Reading.Outcome.{Reads, ReadsAs, Skips};
ghost use Rattle.giop_cdr.specs.Reading.View.{tagged_at};

use crate::fault::CdrFault;
use crate::input::octets_at::OctetsAt;
use crate::input::reader::CdrIn;
use crate::input::tagged::Tagged;
use crate::octets::Octets;
use std::alloc::{AllocError, Global};
use std::marker::{Model, PhantomData};

/// A number and octets, where these lie: the view of a `Tagged`.
#[derive(Drop)]
pub struct TaggedAt<'a, S: Octets> {
    /// The number, which says what the octets are.
    pub tag: u32,
    /// The octets, where they lie.
    pub octets: OctetsAt<'a, S>,
}

/// The values of a sequence where they lie: a list that takes no memory. Contracts see it as the
/// plain list of its values.
#[derive(Drop)]
pub struct TaggedListAt<'a, S: Octets, I: Tagged> {
    // The reader that stands at the first of them.
    items: CdrIn<'a, S>,
    count: usize,
    of: PhantomData<I>,
}

impl<'a, S: Octets, I: Tagged> Model for TaggedListAt<'a, S, I> {
    ghost use Rattle.std.specs.Prelude.{List};
    ghost use Rattle.giop_cdr.specs.Reading.View.{lying, DoLie};

    ghost Value = { List I };

    ghost view = { λ l. lying I.made l.count l.items };

    ghost invariant = { λ l. DoLie I.made l.count l.items };
}

impl<'a, S: Octets, I: Tagged> TaggedListAt<'a, S, I> {
    /// The number of values.
    pub fn len(&self) -> usize
        ensures { result ≡ length self.now }
    {
        self.count
    }

    /// Whether there are no values.
    pub fn is_empty(&self) -> bool
        ensures { result ≡ (length self.now == 0) }
    {
        self.count == 0
    }

    /// Walks the values in their order.
    pub fn iter(&self) -> TaggedIter<'a, S, I>
        ensures { result ≡ self.now }
    {
        TaggedIter { left: self.fork() }
    }

    /// The values, each with a copy of its octets. It takes memory for the list, and for the octets
    /// of each value.
    pub fn to_vec(&self, alloc: Global) -> Result<Vec<I>, AllocError>
        ensures { IfOk result (λ values. values.items ≡ self.now) }
    {
        let mut values = Vec::with_capacity(alloc, self.count)?;
        for TaggedAt { tag, octets } in self.iter() {
            values.push(I::from_parts(tag, octets.to_list(alloc)?))?;
        }
        Ok(values)
    }

    // Another list of the same values, for a walk that leaves this one whole.
    fn fork(&self) -> TaggedListAt<'a, S, I>
        ensures { result ≡ self.now }
    {
        TaggedListAt {
            items: self.items.fork(),
            count: self.count,
            of: PhantomData,
        }
    }

    // Removes the first value and returns it.
    fn pop_first(&mut self) -> Option<TaggedAt<'a, S>>
        ensures first { IfSome result (λ x. self.old ≡ I.made x.tag x.octets ∷ self.new) }
        ensures none { IfNone result ((self.old ≡ []) × (self.new ≡ [])) }
    {
        if self.count == 0 {
            return None;
        }
        let Ok(first) = view_tagged::<S, I>(&mut self.items) else {
            return None;
        };
        self.count -= 1;
        Some(first)
    }
}

// Reads a number, and views the octets behind it where they lie.
#[tactic(auto, unfolding(crate::specs::Reading::View::tagged_at))]
#[inline(always)]
fn view_tagged<'a, S: Octets, I: Tagged>(
    input: &mut CdrIn<'a, S>,
) -> Result<TaggedAt<'a, S>, CdrFault>
    ensures { ReadsAs (λ x. I.made x.tag x.octets) input.old result input.new
        (tagged_at I.made input.old) }
{
    let mut ahead = input.fork();
    let tag = ahead.read_ulong()?;
    let octets = ahead.view_octets(0)?;
    *input = ahead;
    Ok(TaggedAt { tag, octets })
}

// Passes over `count` numbers with octets, and so finds the first that is refused.
#[inline(always)]
fn skip_tagged<'a, S: Octets, I: Tagged>(
    count: usize,
    input: &mut CdrIn<'a, S>,
) -> Result<(), CdrFault>
    ensures { Skips result input.new (items_at (tagged_at I.made) count input.old) }
{
    for _ in 0..count {
        view_tagged::<S, I>(input)?;
    }
    Ok(())
}

impl<'a, S: Octets> CdrIn<'a, S> {
    /// A sequence of numbers with octets, where they lie and so without memory.
    ///
    /// Refused as the count is, or as the first number or sequence of octets that is refused. The
    /// reader then stays where it was.
    #[tactic(auto, unfolding(crate::specs::Reading::Values::sequence_at), using(crate::proofs::Reading::ViewLemmas::passed_lie, crate::proofs::Reading::ViewLemmas::passed_is))]
    #[inline(always)]
    pub fn view_tagged_list<I: Tagged>(&mut self) -> Result<TaggedListAt<'a, S, I>, CdrFault>
        ensures { Reads self.old result self.new (sequence_at (tagged_at I.made) self.old) }
    {
        let mut ahead = self.fork();
        let count = ahead.read_count()?;
        let items = ahead.fork();
        skip_tagged::<S, I>(count, &mut ahead)?;
        *self = ahead;
        Ok(TaggedListAt {
            items,
            count,
            of: PhantomData,
        })
    }
}

/// Walks a list from its first value on. Contracts see it as the list of the values that are left.
#[derive(Drop)]
pub struct TaggedIter<'a, S: Octets, I: Tagged> {
    left: TaggedListAt<'a, S, I>,
}

impl<'a, S: Octets, I: Tagged> Model for TaggedIter<'a, S, I> {
    ghost use Rattle.std.specs.Prelude.{List};

    ghost Value = { List I };

    ghost view = { λ it. it.left };
}

impl<'a, S: Octets, I: Tagged> Iterator for TaggedIter<'a, S, I> {
    ghost use Rattle.std.specs.Iterator.{YieldsFirstBy, item_count};

    type Item = TaggedAt<'a, S>;

    ghost next_gives = { YieldsFirstBy (λ x. I.made x.tag x.octets) (λ left. left) };

    ghost remaining = { item_count (λ left. left) };

    fn next(&mut self) -> Option<TaggedAt<'a, S>> {
        self.left.pop_first()
    }
}
