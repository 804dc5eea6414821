//! A path in the plain form of an interface's file, told as one in the file itself: what a name
//! stands for is told where `types` has it.

use giop_where::Step;
use serde_json::Value as Json;
use std::alloc::{AllocError, Global};

// How many names may stand for one another.
const NAMES: u32 = 256;

/// A path in the plain form of a file, as one in the file.
pub(super) fn path_in_file(
    alloc: Global,
    file: &Json,
    path: Vec<Step>,
) -> Result<Vec<Step>, AllocError> {
    let mut told = Vec::new(alloc);
    let mut part = Some(file);
    for step in path {
        part = match part {
            Some(json) => part_at(json, &step),
            None => None,
        };
        told.push(step)?;
        if let Some(json) = part {
            if let Some((name, named)) = last_name(file, json) {
                told = path_of_type(alloc, name)?;
                part = Some(named);
            }
        }
    }
    Ok(told)
}

// The path to the type of this name.
fn path_of_type(alloc: Global, name: &str) -> Result<Vec<Step>, AllocError> {
    let mut path = Vec::new(alloc);
    path.push(Step::Key(String::from_str(alloc, "types")?))?;
    path.push(Step::Key(String::from_str(alloc, name)?))?;
    Ok(path)
}

// The part of a part at a step.
fn part_at<'a>(json: &'a Json, step: &Step) -> Option<&'a Json> {
    match step {
        Step::Key(key) => json.get(key.as_str()),
        Step::Index(index) => json.get(*index),
    }
}

// The last of the names that a part stands for, one by the other, and what that stands for.
fn last_name<'a>(file: &'a Json, json: &'a Json) -> Option<(&'a str, &'a Json)> {
    let mut found = None;
    let mut part = json;
    for _ in 0..NAMES {
        match name_in(file, part) {
            Some((name, named)) => {
                found = Some((name, named));
                part = named;
            }
            None => break,
        }
    }
    found
}

// The name that a part is, and what it stands for.
fn name_in<'a>(file: &'a Json, json: &'a Json) -> Option<(&'a str, &'a Json)> {
    let name = match json.get("type") {
        Some(name) => name.as_str()?,
        None => return None,
    };
    match file.get("types") {
        Some(types) => match types.get(name) {
            Some(named) => Some((name, named)),
            None => None,
        },
        None => None,
    }
}
