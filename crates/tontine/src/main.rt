//! The book of a tontine: reads a book from standard input and prints what it comes to.
#![tactic(auto)]

use members::{Member, Room, read_head};
use std::io::Read;
use std::process::ExitCode;
use std::rt::Env;
use std::{env, io};
use thiserror::Error;

/// The longest book that is served.
const MOST_BYTES: usize = 16_384;

/// One place for each member that a book can announce, so that too many members are told of as such.
const PLACES: usize = 255;

/// Why the program ends without having told of the book.
#[derive(Debug, Drop, Error)]
enum Failure {
    #[error("usage: tontine < BOOK (unknown argument: {0})")]
    UnknownArgument(String),
    #[error("the book is longer than {most} bytes", most = MOST_BYTES)]
    BookTooLong,
    #[error(transparent)]
    System(#[from] io::Error),
}

/// An error is told in the program's own name. One that is returned would be printed a second time.
fn main(rt: HostRuntime) -> ExitCode {
    let Err(e) = run(&rt) else {
        return ExitCode::SUCCESS;
    };
    let _ = eprintln!(rt; "tontine: {e}");
    ExitCode::FAILURE
}

fn run(rt: &HostRuntime) -> Result<(), Failure> {
    check_arguments(rt)?;
    let book = read_book(rt)?;
    tell(rt, book.as_slice())?;
    Ok(())
}

fn check_arguments(rt: &(impl Env + AllocGlobal)) -> Result<(), Failure> {
    // the first is the program's own name
    match env::args(rt)?.nth(1) {
        Some(unknown) => Err(Failure::UnknownArgument(unknown)),
        None => Ok(()),
    }
}

/// The whole of standard input, unless it is longer than a book may be.
fn read_book(rt: &HostRuntime) -> Result<Vec<u8>, Failure> {
    let mut book = Vec::new(rt.alloc());
    rt.stdin()
        .take(MOST_BYTES as u64 + 1)
        .read_to_end(&mut book)?;
    if book.len() > MOST_BYTES {
        return Err(Failure::BookTooLong);
    }
    Ok(book)
}

/// Prints what each member was paid, or why the book is turned away.
fn tell(rt: &impl Print, book: &[u8]) -> io::Result<()> {
    let mut members = [Member::nobody(); PLACES];
    // a line has a byte at least, so a book has no more lines than bytes
    let room = Room {
        cents: PLACES,
        lines: MOST_BYTES,
    };
    match read_head(book, &mut members, room) {
        Ok(head) => {
            for member in members.iter().take(head.count) {
                println!(rt; "{member}")?;
            }
            Ok(())
        }
        Err(refusal) => println!(rt; "{refusal}"),
    }
}
