//! Packages are read.

use crate::print_fault;
use desk_lines::{Described, read_package, read_package_body};
use std::io;

/// Prints what an object is read as: the package's headline, and each member as its role and item.
pub(crate) fn print_package<R: Print + AllocGlobal>(rt: &R, object: &str) -> io::Result<()> {
    match read_package(rt.alloc(), object.as_bytes()) {
        Ok(described) => {
            let printed = print_described(rt, &described);
            drop(described);
            printed
        }
        Err(fault) => print_fault(rt, fault),
    }
}

/// Prints what an object with a number is read as: the number, and the package.
pub(crate) fn print_numbered<R: Print + AllocGlobal>(rt: &R, object: &str) -> io::Result<()> {
    match read_package_body(rt.alloc(), object.as_bytes()) {
        Ok(request) => {
            let printed = print_request(rt, request.number, &request.described);
            drop(request);
            printed
        }
        Err(fault) => print_fault(rt, fault),
    }
}

fn print_request(rt: &impl Print, number: u64, described: &Described) -> io::Result<()> {
    print!(rt; "{number} ")?;
    print_described(rt, described)
}

fn print_described(rt: &impl Print, described: &Described) -> io::Result<()> {
    print!(rt; "package [{}]", described.story.headline.as_str())?;
    for member in described.members.as_slice() {
        print!(rt; " {} {}", member.role.as_str(), member.item)?;
    }
    println!(rt; "")
}
