// Lines on standard error. Each names the program and, but for usage, the file.
use crate::files;
use desk::work::Source;
use request::ask;
use request::ask::{Fault, Role};
use std::io;

// What cannot be written there is let go: the status says how the run ended.
fn put(err: &impl Print, text: &[u8]) {
    let _ = err.write_all(text);
}

fn put_number(err: &impl Print, number: u64) {
    let _ = err.print(number);
}

fn head(err: &impl Print, name: &[u8]) {
    put(err, b"gfaffix: ");
    put(err, name);
    put(err, b": ");
}

fn input_head(err: &impl Print, name: &[u8]) {
    if ask::is_standard(name) {
        head(err, b"standard input");
        return;
    }
    head(err, name);
}

// 01's numbers that a run can give. 7 is of the input's size, or of the program's rooms.
fn meaning(err: &impl Print, source: Source, number: u64) {
    match number {
        1 => put(
            err,
            b"a line with too few or empty fields, a wrong sign or walk, or a byte 13",
        ),
        2 => put(
            err,
            b"a name that is no plain decimal id from 1 to 4294967295",
        ),
        3 => put(err, b"a letter outside ACGTNacgtn"),
        4 => put(err, b"an overlap that is neither 0M nor *"),
        5 => put(err, b"an id given twice"),
        6 => put(err, b"an id that no segment has"),
        7 if source == Source::Room => put(err, b"more than the program has room for"),
        7 => put(err, b"larger than the program takes"),
        _ => {}
    }
}

// A refusal and what it is of.
pub(crate) fn refused(err: &impl Print, name: &[u8], source: Source, number: u64) {
    input_head(err, name);
    put_number(err, number);
    put(err, b": ");
    meaning(err, source, number);
    put(err, b"\n");
}

// The driver was stopped on its way.
pub(crate) fn stopped(err: &impl Print, name: &[u8], number: u64) {
    input_head(err, name);
    put_number(err, number);
    if number == 7 {
        put(err, b": no room for the next collapse");
    } else {
        put(err, b": no id left for the next collapse");
    }
    put(err, b"; what was made before it is written\n");
}

// What a failure means.
fn why(err: &impl Print, e: io::Error) {
    match files::reason(e) {
        files::ENOENT => put(err, b"no such file or folder"),
        files::EACCES => put(err, b"not allowed"),
        files::EISDIR => put(err, b"a folder"),
        files::EEXIST => put(err, b"its .part is there already"),
        files::ENOTDIR => put(err, b"no folder on the way to it"),
        files::ENAMETOOLONG => put(err, b"too long a name"),
        files::ENOSPC => put(err, b"no space left"),
        files::EROFS => put(err, b"it cannot be changed there"),
        _ => put(err, b"the system refuses"),
    }
}

// Why a file cannot be read, and usage.
pub(crate) fn unreadable(err: &impl Print, name: &[u8], e: io::Error) {
    input_head(err, name);
    put(err, b"cannot be read: ");
    why(err, e);
    put(err, b"\n");
    usage(err);
}

pub(crate) fn unwritable(err: &impl Print, name: &[u8], e: io::Error) {
    head(err, name);
    put(err, b"cannot be written: ");
    why(err, e);
    put(err, b"\n");
}

fn usage(err: &impl Print) {
    put(
        err,
        b"usage: gfaffix [GRAPH] [-o OUT] [-t TABLE] [-c] [-x IDS]\n",
    );
}

pub(crate) fn too_long(err: &impl Print) {
    put(err, b"gfaffix: more than 32768 bytes of words\n");
    usage(err);
}

// What is wrong with the words, and usage.
pub(crate) fn faulty(err: &impl Print, words: &[u8], fault: Fault) {
    match fault {
        Fault::EmptyWord => put(err, b"gfaffix: an empty word\n"),
        Fault::UnknownOption => {
            head(err, ask::first(words, Role::Unknown));
            put(err, b"no such option\n");
        }
        Fault::TwoGraphs => put(err, b"gfaffix: more than one graph\n"),
        Fault::GivenTwice => put(err, b"gfaffix: an option given twice\n"),
        Fault::Incomplete => put(
            err,
            b"gfaffix: nothing after the last option, which takes a word\n",
        ),
        Fault::SameFile => put(err, b"gfaffix: OUT and TABLE are the same file\n"),
        Fault::SharedInput => put(err, b"gfaffix: GRAPH and IDS are both standard input\n"),
    }
    usage(err);
}
