//! Descriptions are dropped here however deep they are nested.
use crate::description::desc::Desc;
use std::mem::replace;

/// Drops a description. It takes no memory, and as much stack for a deep one as for a flat one.
///
/// Nodes that were entered make a chain, by their own memory: each has the one before it in the
/// place of its first part.
pub fn take_apart(desc: Desc) {
    let mut chain = Desc::Boolean;
    let mut part = desc;
    // A node is entered once and left once, and takes an octet of memory or more: this ends before
    // the range does.
    for _ in 0..u64::MAX {
        match first_place(&mut part) {
            Some(place) => {
                let first = replace(place, chain);
                chain = replace(&mut part, first);
            }
            None => match next_part(&mut chain) {
                Some(next) => part = next,
                None => break,
            },
        }
    }
}

// Where the first part of a node stands.
fn first_place(node: &mut Desc) -> Option<&mut Desc> {
    match node {
        Desc::Members(members) => match members.first_mut() {
            Some(member) => Some(&mut member.desc),
            None => None,
        },
        Desc::Choice { disc, .. } => Some(&mut **disc),
        Desc::Items(item, _) => Some(&mut **item),
        Desc::Row(item, _) => Some(&mut **item),
        _ => None,
    }
}

// Takes another part out of the last node of the chain. Where it has none it leaves the chain, and
// a part that has no parts is returned; None where the chain is at its end.
fn next_part(chain: &mut Desc) -> Option<Desc> {
    if let Some(part) = other_part(chain) {
        return Some(part);
    }
    let before = replace(first_place(chain)?, Desc::Boolean);
    *chain = before;
    Some(Desc::Boolean)
}

// Takes a part out of a node that isn't its first.
fn other_part(node: &mut Desc) -> Option<Desc> {
    match node {
        Desc::Members(members) if members.len() > 1 => match members.pop() {
            Some(member) => Some(member.desc),
            None => None,
        },
        Desc::Choice {
            cases,
            fallback,
            ..
        } => match cases.pop() {
            Some(case) => Some(case.desc),
            None => match fallback.take() {
                Some(member) => Some(Box::into_inner(member).desc),
                None => None,
            },
        },
        _ => None,
    }
}
