//! Accepted scripts, and how their runs end.

use sdv_certify::{certify, write};
use sdv_check::{Accepted, verify};
use sdv_run::{End, RunFault};
use sdv_script::parse;
use std::alloc::Global;
use std::process::Abort;
use std::str;

/// The text of the certificate of a script.
fn certificate_of(rt: &impl Abort, alloc: Global, script: &str) -> Vec<u8> {
    let script = parse(alloc, script).expect(rt, "a script");
    let certificate = certify(alloc, &script).expect(rt, "a certificate");
    let mut text = Vec::new(alloc);
    write(&certificate, &mut text).expect(rt, "memory");
    text
}

/// The script of a text, with the certificate that is written for it.
pub fn accepted<'a>(rt: &impl Abort, alloc: Global, text: &'a str) -> Accepted<'a> {
    let certificate = certificate_of(rt, alloc, text);
    let certificate = str::from_utf8(&certificate).expect(rt, "a text");
    verify(alloc, text, certificate).expect(rt, "an accepted script")
}

/// The name of a fault that a script ended in, or what else came of a run.
pub fn name_of(outcome: &Result<End, RunFault>) -> &str {
    match outcome {
        Ok(End::Done) => "done",
        Ok(End::Fault(name)) => name.as_str(),
        Err(RunFault::Reply) => "Reply",
        Err(RunFault::Input) => "Input",
        Err(RunFault::Output) => "Output",
        Err(RunFault::Trace) => "Trace",
        Err(RunFault::Memory) => "Memory",
    }
}
