// Files by name. What goes to a file stands beside it under NAME.part until all of it is there.
ghost use Rattle.std.specs.Prelude.{IfOk};
ghost use Rattle.std.specs.Counts.{IsPrefixLen};

use kit::put_bytes;
use request::ask::is_standard;
use std::fs::{OpenFile, OpenOptions};
use std::io::{Read, Write};
use std::rt::Files;
use std::{fs, io, str};

// Linux's numbers for why a call failed. EIO also stands for a failure that has none.
pub(crate) const ENOENT: i32 = 2;

const EIO: i32 = 5;

pub(crate) const EACCES: i32 = 13;

pub(crate) const EEXIST: i32 = 17;

pub(crate) const ENOTDIR: i32 = 20;

pub(crate) const EISDIR: i32 = 21;

pub(crate) const ENOSPC: i32 = 28;

pub(crate) const EROFS: i32 = 30;

pub(crate) const ENAMETOOLONG: i32 = 36;

// Which file could not be written, and why.
#[derive(Drop)]
pub(crate) enum Unsaved {
    Out(io::Error),
    Table(io::Error),
}

// Why a call failed.
pub(crate) fn reason(e: io::Error) -> i32 {
    match e.raw_os_error() {
        None | Some(0) => EIO,
        Some(error) => error,
    }
}

// How many bytes were read. A read that moves nothing is at the end.
fn fill(from: &mut impl Read, buf: &mut [u8]) -> io::Result<usize>
    ensures { IfOk result (λ n. IsPrefixLen n buf.new) }
{
    let mut at: usize = 0;
    // The place moves by what a read brings, so it is no count.
    while at < buf.len() {
        let n = from.read(&mut buf[at..])?;
        if n == 0 {
            return Ok(at);
        }
        at += n;
    }
    Ok(at)
}

// A name as std takes it, which is text.
fn as_text(name: &[u8]) -> io::Result<&str> {
    str::from_utf8(name).map_err(|_| io::Error::from(io::ErrorKind::InvalidInput))
}

fn open_read<R: Files>(rt: &R, name: &[u8]) -> io::Result<R::File> {
    fs::open(rt, as_text(name)?)
}

// A file that is not there yet.
fn create<R: Files>(rt: &R, name: &[u8]) -> io::Result<R::File> {
    OpenOptions::new()
        .write(true)
        .create_new(true)
        .open(rt, as_text(name)?)
}

fn open_overwrite<R: Files>(rt: &R, name: &[u8]) -> io::Result<R::File> {
    fs::create(rt, as_text(name)?)
}

fn unlink(rt: &impl Files, name: &[u8]) -> io::Result<()> {
    fs::remove_file(rt, as_text(name)?)
}

fn rename(rt: &impl Files, from: &[u8], to: &[u8]) -> io::Result<()> {
    fs::rename(rt, as_text(from)?, as_text(to)?)
}

// A file's bytes, as far as there is room for them.
pub(crate) fn read(rt: &(impl Files + Input), name: &[u8], buf: &mut [u8]) -> io::Result<usize>
    ensures { IfOk result (λ n. IsPrefixLen n buf.new) }
{
    if is_standard(name) {
        return fill(&mut rt.reader(), buf);
    }
    let mut file = open_read(rt, name)?;
    fill(&mut file, buf)
}

// NAME.part, and how long it is.
fn part(name: &[u8], path: &mut [u8]) -> io::Result<usize>
    ensures { IfOk result (λ n. IsPrefixLen n path.new) }
{
    if path.len() < 5 || path.len() - 5 < name.len() {
        return Err(io::Error::from_raw_os_error(ENAMETOOLONG));
    }
    let at = put_bytes(path, 0, name);
    Ok(put_bytes(path, at, b".part"))
}

// What was written is waited for, since some failures come that late. A device has nothing to wait for.
fn settle(file: &impl OpenFile) -> io::Result<()> {
    match file.sync_all() {
        Err(e) if e.kind() == io::ErrorKind::InvalidInput => Ok(()),
        Err(e) if e.kind() == io::ErrorKind::Unsupported => Ok(()),
        done => done,
    }
}

// The file is closed at the end, whether or not all went into it.
fn write(mut file: impl Write + OpenFile + Drop, bytes: &[u8]) -> io::Result<()> {
    file.write_all(bytes)?;
    settle(&file)
}

// A part that could not be written whole does not stay.
fn write_part(rt: &impl Files, name: &[u8], bytes: &[u8]) -> io::Result<()> {
    // No heap: the room is of fixed size.
    let mut path = [0u8; 4096];
    let n = part(name, &mut path)?;
    let file = create(rt, &path[..n])?;
    let written = write(file, bytes);
    if written.is_err() {
        let _ = unlink(rt, &path[..n]);
    }
    written
}

fn drop_part(rt: &impl Files, name: &[u8]) -> io::Result<()> {
    // No heap: the room is of fixed size.
    let mut path = [0u8; 4096];
    let n = part(name, &mut path)?;
    unlink(rt, &path[..n])
}

fn keep_part(rt: &impl Files, name: &[u8]) -> io::Result<()> {
    // No heap: the room is of fixed size.
    let mut path = [0u8; 4096];
    let n = part(name, &mut path)?;
    let renamed = rename(rt, &path[..n], name);
    if renamed.is_err() {
        let _ = unlink(rt, &path[..n]);
    }
    renamed
}

// A device is written as it stands: a rename would put a file in its place.
fn in_place(name: &[u8]) -> bool {
    name.starts_with(b"/dev/")
}

fn begin(rt: &impl Files, name: &[u8], bytes: &[u8]) -> io::Result<()> {
    if is_standard(name) || in_place(name) {
        return Ok(());
    }
    write_part(rt, name, bytes)
}

fn undo(rt: &impl Files, name: &[u8]) {
    if is_standard(name) || in_place(name) {
        return;
    }
    let _ = drop_part(rt, name);
}

fn finish(rt: &impl Files, name: &[u8], bytes: &[u8]) -> io::Result<()> {
    if is_standard(name) {
        return Ok(());
    }
    if !in_place(name) {
        return keep_part(rt, name);
    }
    write(open_overwrite(rt, name)?, bytes)
}

// Both files, or the one that has a name. The first takes its name once both are whole.
pub(crate) fn save(
    rt: &impl Files,
    out: &[u8],
    page: &[u8],
    table: &[u8],
    rows: &[u8],
) -> Result<(), Unsaved> {
    begin(rt, out, page).map_err(Unsaved::Out)?;
    if let Err(e) = begin(rt, table, rows) {
        undo(rt, out);
        return Err(Unsaved::Table(e));
    }
    if let Err(e) = finish(rt, out, page) {
        undo(rt, table);
        return Err(Unsaved::Out(e));
    }
    finish(rt, table, rows).map_err(Unsaved::Table)
}
