// Reads a model file from standard input and prints the variance of each degree, or why the file is refused.
// What is read holds every file up to degree 86 (65,097 bytes, 65,101 with a date) and at least one byte more. A longer input prints the same as its first
// 65,536 bytes: the law `report_front` of variance_report.
#![tactic(auto)]

use std::io::{Read, Result, Write};

fn main(rt: HostRuntime) -> Result<()> {
    let mut bytes = Vec::new(rt.alloc());
    rt.stdin().take(65536).read_to_end(&mut bytes)?;
    let mut text = [0u8; 1756];
    let k = variance_report::report(&bytes, &mut text);
    rt.stdout().write_all(&text[..k])
}
