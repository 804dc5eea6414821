//! Ten thousand calls chosen by a fixed seed, beside a plain map.
use crate::{Chain, Gather, GatherFault};
use giop_cdr::{Octets, Order};
use std::alloc::Global;
use std::collections::BTreeMap;
use std::process::Abort;
use std::test::Fail;

const LIMIT: usize = 20_000;

// The next number of a linear congruential generator, and some of its bits.
fn next(seed: u64) -> u64 {
    seed.wrapping_mul(6_364_136_223_846_793_005)
        .wrapping_add(1_442_695_040_888_963_407)
}

// What a plain gatherer holds.
#[derive(Drop)]
struct Plain {
    lists: BTreeMap<u32, Vec<u8>>,
    total: usize,
    blocks: usize,
}

impl Plain {
    // The blocks that are needed now.
    fn needed(&self) -> usize {
        let mut needed = 0usize;
        for list in self.lists.values() {
            needed = needed.wrapping_add(list.len() / 512);
            if list.len() % 512 != 0 {
                needed = needed.wrapping_add(1);
            }
        }
        needed
    }

    // What a call answers that joins octets, or begins with them.
    fn put(&mut self, alloc: Global, id: u32, octets: &[u8]) -> Result<(), GatherFault> {
        if self.total.wrapping_add(octets.len()) > LIMIT {
            return Err(GatherFault::GatherFull);
        }
        let mut list = self.lists.remove(&id).unwrap_or(Vec::new(alloc));
        list.extend_from_slice(octets)?;
        self.lists
            .insert(id, list)
            .map_err(|_| GatherFault::NoMemory)?;
        self.total = self.total.wrapping_add(octets.len());
        self.blocks = self.blocks.max(self.needed());
        Ok(())
    }

    fn take(&mut self, id: u32) {
        if let Some(list) = self.lists.remove(&id) {
            self.total = self.total.wrapping_sub(list.len());
        }
    }
}

// Whether the chain holds just these octets, run by run.
fn holds(chain: &Chain<'_>, octets: &[u8]) -> bool {
    let mut rest = octets;
    for _ in 0..octets.len() {
        let at = octets.len() - rest.len();
        if at >= chain.len() {
            return rest.is_empty();
        }
        let run = chain.run(at);
        let Some(behind) = rest.strip_prefix(run) else {
            return false;
        };
        rest = behind;
        if rest.is_empty() {
            return chain.len() == octets.len();
        }
    }
    chain.len() == 0
}

// Both hold the same under the id, and count the same.
fn assert_same(rt: &impl Abort, gather: &Gather, plain: &Plain, id: u32) {
    match (gather.chain(id), plain.lists.get(&id)) {
        (Some((_, chain)), Some(list)) => assert!(rt; holds(&chain, list)),
        (chain, list) => assert!(rt; chain.is_none() && list.is_none()),
    }
    assert_eq!(rt; gather.total(), plain.total);
    assert_eq!(rt; gather.blocks(), plain.blocks);
    assert_eq!(rt; gather.len(), plain.lists.len());
}

// One call: mostly of octets, now and then one that takes an id out.
fn step(
    rt: &impl Abort,
    alloc: Global,
    gather: &mut Gather,
    plain: &mut Plain,
    chosen: u64,
    octets: &[u8],
) -> Result<(), Fail> {
    let id = (chosen % 12) as u32 * 1_000_003;
    match chosen / 12 % 16 {
        0 => {
            gather.discard(id);
            plain.take(id);
        }
        1 => {
            match (gather.finish(id), plain.lists.get(&id)) {
                (Ok((_, joined)), Some(list)) => {
                    assert!(rt; joined.as_slice() == list.as_slice());
                }
                (answer, list) => {
                    assert!(rt; answer.err() == Some(GatherFault::Stray) && list.is_none());
                }
            }
            plain.take(id);
        }
        _ => {
            let piece = &octets[..(chosen / 192 % 1400) as usize];
            let answer = if gather.contains(id) {
                gather.add(id, Order::Big, piece)
            } else {
                gather.begin(id, Order::Big, piece)
            };
            assert_eq!(rt; answer, plain.put(alloc, id, piece));
        }
    }
    assert_same(rt, gather, plain, id);
    Ok(())
}

#[test]
fn ten_thousand_calls_are_answered_as_by_a_plain_map(rt: HostRuntime) -> Result<(), Fail> {
    let alloc = rt.alloc();
    let mut gather = Gather::new(alloc, LIMIT);
    let mut plain = Plain {
        lists: BTreeMap::new(alloc),
        total: 0,
        blocks: 0,
    };
    let mut seed = 0x5EED;
    let mut octets = [0u8; 1400];
    for turn in 0..10_000u32 {
        seed = next(seed);
        octets[(turn % 1400) as usize] = (seed >> 56) as u8;
        step(&rt, alloc, &mut gather, &mut plain, seed >> 20, &octets)?;
    }
    for k in 0..12u32 {
        assert_same(&rt, &gather, &plain, k * 1_000_003);
    }
    Ok(())
}
