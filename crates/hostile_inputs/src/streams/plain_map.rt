//! A plain map of objects, and its replies to requests.
ghost use Rattle.std.specs.Prelude.{◌<◌, IfSome, length};

use crate::streams::plain_reader::{Asked, first_request};
use size_class::SIZE_MAX;
use std::alloc::{AllocError, Global};

/// An object, by the bytes of the input that it came with.
#[derive(Clone, Copy)]
pub struct Object<'a> {
    pub name: &'a [u8],
    pub bytes: &'a [u8],
}

/// The objects by rising name, now and at the last checkpoint; how many requests were answered, and how
/// many of them the last checkpoint holds; and all replies.
#[derive(Drop)]
pub struct PlainMap<'a> {
    alloc: Global,
    now: Vec<Object<'a>>,
    pub kept: Vec<Object<'a>>,
    pub done: u64,
    pub kept_done: u64,
    pub replies: Vec<u8>,
}

/// How many names there may be.
const NAMES: usize = 16;

/// The longest name of an object, and the most bytes of one.
const LONGEST: usize = 63;

const LARGEST: usize = SIZE_MAX as usize;

impl<'a> PlainMap<'a> {
    /// A map without objects.
    pub fn new(alloc: Global) -> PlainMap<'a> {
        PlainMap {
            alloc,
            now: Vec::new(alloc),
            kept: Vec::new(alloc),
            done: 0,
            kept_done: 0,
            replies: Vec::new(alloc),
        }
    }

    /// Answers the requests of an input up to the first bytes that are none, and answers whether the
    /// input ended there. Which changes made a checkpoint is told by what the program put, since a map
    /// knows nothing of flushes.
    pub fn serve_all(&mut self, input: &'a [u8], put: &[u8]) -> Result<bool, AllocError> {
        let mut rest = input;
        for _ in 0..input.len() {
            let Some(first) = first_request(rest) else {
                break;
            };
            rest = first.rest;
            self.done = self.done.saturating_add(1);
            self.serve(first.asked, put)?;
        }
        if !rest.is_empty() {
            let number = self.done.saturating_add(1);
            let line = format!(in self.alloc; "fault request {number}\n")?;
            self.say(line.as_bytes())?;
        }
        Ok(rest.is_empty())
    }

    /// Answers a request.
    fn serve(&mut self, asked: Asked<'a>, put: &[u8]) -> Result<(), AllocError> {
        match asked {
            Asked::Put { name, object } => self.put(name, object, put),
            Asked::Del(name) => self.del(name, put),
            Asked::Get(name) => self.give(name, false),
            Asked::Old(name) => self.give(name, true),
            Asked::Keep => {
                self.say(b"ok kept\n")?;
                self.keep()
            }
            Asked::Back => {
                self.now.clear();
                self.now.extend_from_slice(&self.kept)?;
                self.say(b"ok\n")
            }
            Asked::List => self.list(),
            Asked::Stat => self.stat(),
        }
    }

    /// Puts an object, in the place of the one that has its name.
    fn put(&mut self, name: &'a [u8], object: &'a [u8], put: &[u8]) -> Result<(), AllocError> {
        if LONGEST < name.len() {
            return self.say(b"refused name\n");
        }
        if LARGEST < object.len() {
            return self.say(b"refused size\n");
        }
        let found = place_of(&self.now, name);
        if found.is_none() && NAMES <= self.now.len() {
            return self.say(b"refused full\n");
        }
        if let Some(at) = found {
            self.now.remove(at);
        }
        let at = self.now.iter().filter(|other| other.name < name).count();
        let object = Object {
            name,
            bytes: object,
        };
        if at <= self.now.len() {
            self.now.insert(at, object)?;
        }
        self.changed(put)
    }

    /// Removes an object.
    fn del(&mut self, name: &[u8], put: &[u8]) -> Result<(), AllocError> {
        if LONGEST < name.len() {
            return self.say(b"refused name\n");
        }
        match place_of(&self.now, name) {
            Some(at) => {
                self.now.remove(at);
                self.changed(put)
            }
            None => self.say(b"refused missing\n"),
        }
    }

    /// Answers a change: `ok kept` where the program put so there, and then it is a checkpoint.
    fn changed(&mut self, put: &[u8]) -> Result<(), AllocError> {
        let told = put.get(self.replies.len()..).unwrap_or(&[]);
        if told.starts_with(b"ok kept\n") {
            self.say(b"ok kept\n")?;
            return self.keep();
        }
        self.say(b"ok\n")
    }

    /// Makes a checkpoint of what there is now.
    fn keep(&mut self) -> Result<(), AllocError> {
        self.kept_done = self.done;
        self.kept.clear();
        self.kept.extend_from_slice(&self.now)
    }

    /// Gives an object, of now or of the last checkpoint.
    fn give(&mut self, name: &[u8], is_old: bool) -> Result<(), AllocError> {
        if LONGEST < name.len() {
            return self.say(b"refused name\n");
        }
        let found = if is_old {
            bytes_named(&self.kept, name)
        } else {
            bytes_named(&self.now, name)
        };
        let Some(bytes) = found else {
            return self.say(b"refused missing\n");
        };
        let line = format!(in self.alloc; "data {}\n", bytes.len())?;
        self.say(line.as_bytes())?;
        self.say(bytes)?;
        self.say(b"\n")
    }

    /// Lists the objects.
    fn list(&mut self) -> Result<(), AllocError> {
        let line = format!(in self.alloc; "list {}\n", self.now.len())?;
        self.say(line.as_bytes())?;
        for object in &self.now {
            self.replies.extend_from_slice(object.name)?;
            let size = format!(in self.alloc; " {}\n", object.bytes.len())?;
            self.replies.extend_from_slice(size.as_bytes())?;
        }
        Ok(())
    }

    /// Counts the objects and their bytes.
    fn stat(&mut self) -> Result<(), AllocError> {
        let line = format!(in self.alloc;
            "stat {} {} {} {}\n",
            self.now.len(),
            bytes_of(&self.now),
            self.kept.len(),
            bytes_of(&self.kept)
        )?;
        self.say(line.as_bytes())
    }

    /// Adds a reply, or a part of one.
    fn say(&mut self, bytes: &[u8]) -> Result<(), AllocError> {
        self.replies.extend_from_slice(bytes)
    }
}

/// How many bytes objects have together.
pub fn bytes_of(objects: &[Object<'_>]) -> u64 {
    let mut bytes = 0u64;
    for object in objects {
        bytes = bytes.saturating_add(object.bytes.len() as u64);
    }
    bytes
}

/// Where the object of a name stands.
fn place_of(objects: &[Object<'_>], name: &[u8]) -> Option<usize>
    ensures { IfSome result (λ at. at < length objects.now) }
{
    objects.iter().position(|object| object.name == name)
}

/// The bytes of the object of a name.
fn bytes_named<'a>(objects: &[Object<'a>], name: &[u8]) -> Option<&'a [u8]> {
    for object in objects {
        if object.name == name {
            return Some(object.bytes);
        }
    }
    None
}
