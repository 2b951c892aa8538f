//! Questions of a desk.

use crate::print_fault;
use desk_answers::word_of_state;
use desk_lines::read_reach_body;
use desk_views::{DeskQuestion, Register};
use news_types::{Name, Names, State};
use std::io;

/// Prints a question of a desk: the desk, the number, the state and the user; the kind of things and a name; the item and the
/// targets; or the item and the number. What is not given is a dash.
pub(crate) fn print_desk(rt: &impl Print, question: &DeskQuestion) -> io::Result<()> {
    match question {
        DeskQuestion::Items {
            desk,
            below,
            state,
            user,
        } => println!(rt;
            "items {} {below} {} {}",
            name_or_dash(desk),
            state_or_dash(state),
            name_or_dash(user)
        ),
        DeskQuestion::Things { of, after } => {
            println!(rt; "things {} {}", word_of_register(*of), name_or_dash(after))
        }
        DeskQuestion::Reach { item, targets } => {
            print!(rt; "reach {item}")?;
            print_names(rt, targets)
        }
        DeskQuestion::Publications { item, after } => println!(rt; "publications {item} {after}"),
    }
}

/// Prints the targets that an object is read as.
pub(crate) fn print_targets<R: Print + AllocGlobal>(rt: &R, object: &str) -> io::Result<()> {
    match read_reach_body(rt.alloc(), object.as_bytes()) {
        Ok(targets) => {
            print!(rt; "targets")?;
            print_names(rt, &targets)
        }
        Err(fault) => print_fault(rt, fault),
    }
}

fn print_names(rt: &impl Print, names: &Names) -> io::Result<()> {
    for name in names.as_slice() {
        print!(rt; " {}", name.as_str())?;
    }
    println!(rt; "")
}

fn name_or_dash(name: &Option<Name>) -> &str {
    match name {
        None => "-",
        Some(name) => name.as_str(),
    }
}

fn state_or_dash(state: &Option<State>) -> &'static str {
    match state {
        None => "-",
        Some(state) => word_of_state(*state),
    }
}

fn word_of_register(register: Register) -> &'static str {
    match register {
        Register::Users => "users",
        Register::Desks => "desks",
        Register::Conditions => "conditions",
        Register::Filters => "filters",
        Register::Products => "products",
        Register::Subscribers => "subscribers",
        Register::Schemes => "schemes",
        Register::Providers => "providers",
    }
}
