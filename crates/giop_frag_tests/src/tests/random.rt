//! Ten thousand random calls from a fixed seed, beside a plain table of the ids. What each call
//! must answer is worked out from the table, and after each call what is gathered is the table's.
ghost use Rattle.std.specs.Prelude.{◌<◌};

use giop_cdr::{Octets, Order};
use giop_frag::{Chain, Gather, GatherFault};
use std::process::Abort;
use std::test::Fail;

const LIMIT: usize = 6_000;

const IDS: usize = 8;

const CALLS: usize = 10_000;

// Numbers that look random (Marsaglia's xorshift, of 64 bits).
#[derive(Drop)]
struct Random(u64);

impl Random {
    fn below(&mut self, n: usize) -> usize
        requires { 0 < n }
        ensures { result < n }
    {
        self.0 ^= self.0 << 13;
        self.0 ^= self.0 >> 7;
        self.0 ^= self.0 << 17;
        (self.0 >> 33) as usize % n
    }

    fn order(&mut self) -> Order {
        match self.below(2) {
            0 => Order::Big,
            _ => Order::Little,
        }
    }
}

// What must be gathered under one id.
#[derive(Drop)]
struct Held {
    is_begun: bool,
    order: Order,
    octets: Vec<u8>,
}

impl Held {
    fn begin_fault(&self, room: usize, more: usize) -> Result<(), GatherFault> {
        if more > room {
            return Err(GatherFault::GatherFull);
        }
        Ok(())
    }

    fn add_fault(&self, order: Order, room: usize, more: usize) -> Result<(), GatherFault> {
        if !self.is_begun {
            return Err(GatherFault::Stray);
        }
        if order != self.order {
            return Err(GatherFault::OrderDiffers);
        }
        self.begin_fault(room, more)
    }

    fn clear(&mut self) {
        self.is_begun = false;
        self.octets.clear();
    }
}

fn total(table: &[Held]) -> usize {
    let mut total = 0usize;
    for held in table {
        total = total.wrapping_add(held.octets.len());
    }
    total
}

fn blocks_of(table: &[Held]) -> usize {
    let mut blocks = 0usize;
    for held in table {
        let begun = if held.octets.len() % 512 == 0 { 0 } else { 1 };
        blocks = blocks
            .wrapping_add(held.octets.len() / 512)
            .wrapping_add(begun);
    }
    blocks
}

fn begun(table: &[Held]) -> usize {
    table.iter().filter(|held| held.is_begun).count()
}

// The ids lie far apart, and not in the order of the table.
fn id_of(place: usize) -> u32 {
    ((place % IDS) as u32).wrapping_mul(2_654_435_761)
}

fn holds(chain: &Chain<'_>, octets: &[u8]) -> bool {
    if chain.len() != octets.len() {
        return false;
    }
    for i in 0..chain.len() {
        if i % 512 == 0 && !(i < octets.len() && octets[i..].starts_with(chain.run(i))) {
            return false;
        }
    }
    true
}

fn has(gather: &Gather, id: u32, held: &Held) -> bool {
    match gather.chain(id) {
        Some((order, chain)) => {
            held.is_begun && order == held.order && holds(&chain, &held.octets)
        }
        None => !held.is_begun && !gather.contains(id),
    }
}

fn assert_same(rt: &impl Abort, gather: &Gather, table: &[Held]) {
    for (place, held) in table.iter().enumerate() {
        assert!(rt; has(gather, id_of(place), held));
    }
    assert_eq!(rt; gather.total(), total(table));
    assert_eq!(rt; gather.len(), begun(table));
}

// Begins under an id that has none, and once more where memory was wanting.
fn begin(gather: &mut Gather, id: u32, order: Order, octets: &[u8]) -> Result<(), GatherFault> {
    if gather.contains(id) {
        return Err(GatherFault::Stray);
    }
    gather.begin(id, order, octets)
}

fn begin_at_last(
    rt: &impl Abort,
    gather: &mut Gather,
    held: &mut Held,
    id: u32,
    order: Order,
    room: usize,
    octets: &[u8],
) -> Result<(), Fail> {
    let mut answer = begin(gather, id, order, octets);
    if answer == Err(GatherFault::NoMemory) {
        assert!(rt; has(gather, id, held));
        answer = begin(gather, id, order, octets);
    }
    assert_eq!(rt; answer, held.begin_fault(room, octets.len()));
    if answer.is_ok() {
        held.is_begun = true;
        held.order = order;
        held.octets.extend_from_slice(octets)?;
    }
    Ok(())
}

// Adds, and once more where memory was wanting.
fn add_at_last(
    rt: &impl Abort,
    gather: &mut Gather,
    held: &mut Held,
    id: u32,
    order: Order,
    room: usize,
    octets: &[u8],
) -> Result<(), Fail> {
    let mut answer = gather.add(id, order, octets);
    if answer == Err(GatherFault::NoMemory) {
        assert!(rt; has(gather, id, held));
        answer = gather.add(id, order, octets);
    }
    assert_eq!(rt; answer, held.add_fault(order, room, octets.len()));
    if answer.is_ok() {
        held.octets.extend_from_slice(octets)?;
    }
    Ok(())
}

fn finish(rt: &impl Abort, gather: &mut Gather, held: &mut Held, id: u32) {
    match gather.finish(id) {
        Ok((order, octets)) => {
            assert!(rt; held.is_begun && order == held.order);
            assert!(rt; octets.as_slice() == held.octets.as_slice());
            held.clear();
        }
        Err(GatherFault::NoMemory) => assert!(rt; held.is_begun && has(gather, id, held)),
        Err(fault) => assert!(rt; fault == GatherFault::Stray && !held.is_begun),
    }
}

// A call of a random kind on a random id.
fn call(
    rt: &impl Abort,
    gather: &mut Gather,
    table: &mut [Held],
    random: &mut Random,
    octets: &[u8],
) -> Result<(), Fail> {
    let room = LIMIT.saturating_sub(total(table));
    let place = random.below(IDS);
    let id = id_of(place);
    let Some(held) = table.get_mut(place) else {
        return Ok(());
    };
    match random.below(10) {
        0 => finish(rt, gather, held, id),
        1 => {
            gather.discard(id);
            held.clear();
        }
        2 => add_at_last(rt, gather, held, id, random.order(), room, octets)?,
        _ if held.is_begun => add_at_last(rt, gather, held, id, held.order, room, octets)?,
        _ => begin_at_last(rt, gather, held, id, random.order(), room, octets)?,
    }
    Ok(())
}

#[test]
fn random_calls_gather_what_a_plain_table_does(rt: HostRuntime) -> Result<(), Fail> {
    let alloc = rt.alloc();
    let mut table = Vec::with_capacity(alloc, IDS)?;
    for _ in 0..IDS {
        table.push(Held {
            is_begun: false,
            order: Order::Big,
            octets: Vec::with_capacity(alloc, LIMIT)?,
        })?;
    }
    let mut octets = vec![in alloc; 0u8; 2_048]?;
    let mut random = Random(88_172_645_463_325_252);
    for octet in octets.iter_mut() {
        *octet = random.below(256) as u8;
    }
    let mut gather = Gather::new(alloc, LIMIT);
    let mut blocks = 0;
    for _ in 0..CALLS {
        let from = random.below(800);
        let more = random.below(1_200);
        let piece = octets.get(from..from + more).unwrap_or(&[]);
        call(&rt, &mut gather, &mut table, &mut random, piece)?;
        assert_same(&rt, &gather, &table);
        blocks = blocks.max(blocks_of(&table));
        assert_eq!(rt; gather.blocks(), blocks);
    }
    Ok(())
}
