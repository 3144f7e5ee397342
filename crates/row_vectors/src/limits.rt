//! An object of a mebibyte, and room for the most names.
use crate::answers::{GET, got, try_command, try_holds, try_number, try_outcome};
use crate::formats::try_format;
use crate::images::{Change, image};
use crate::runs::{ended, run};
use std::alloc::Global;
use std::process::Abort;

/// The class is 20, with a capacity of 1,048,576 (0x100000) and a buffer of 116,508.
const LARGE: &[Change] = &[(120, 0), (266, 0x10), (8624, 0), (8626, 0x10)];

/// The bytes of the object.
fn large(rt: &impl Abort, alloc: Global) -> Vec<u8> {
    let mut object = Vec::new(alloc);
    for n in 0..1_048_576u32 {
        object.push((n % 251) as u8).expect(rt, "memory");
    }
    object
}

/// The image that has it.
fn image_of(rt: &impl Abort, alloc: Global, object: &[u8]) -> Vec<u8> {
    let mut bytes = got(rt, image(alloc, 1_184_687, LARGE, &[]));
    if bytes.len() == 1_184_687 && object.len() == 1_048_576 {
        bytes[19_603..1_068_179].copy_from_slice(object);
    }
    bytes
}

/// `get f a` of an image puts the object.
fn try_get(rt: &impl Abort, alloc: Global, bytes: &[u8], object: &[u8]) {
    let ran = got(rt, run(alloc, GET, bytes));
    try_outcome(rt, ran.outcome, ended(0), &"status");
    try_number(rt, ran.put.len() as u64, 1_048_576, &"length");
    try_holds(rt, ran.put.as_slice() == object, &"bytes");
}

#[test]
fn gets_an_object_of_a_mebibyte(rt: HostRuntime) {
    let object = large(&rt, rt.alloc());
    let bytes = image_of(&rt, rt.alloc(), &object);
    try_get(&rt, rt.alloc(), &bytes, &object);
}

/// The words of a format with room for the most names.
const FORMAT: &[&str] = &["format", "f", "64", "65536"];

#[test]
fn formats_room_for_the_most_names(rt: HostRuntime) {
    let file = try_format(&rt, rt.alloc(), FORMAT, 10_502_803);
    try_command(&rt, rt.alloc(), file, GET, 6, "fault missing\n");
}
