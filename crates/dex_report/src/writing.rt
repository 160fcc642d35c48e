//! Parts that are written, one after the other or side by side.

ghost use Rattle.std.specs.Prelude.{◌≡◌, ◌++◌, [], Ok, IfOk, OnOk, ⊤, map};
ghost use Rattle.std.specs.List.{All, AllZip, flat_map};
ghost use Rattle.dex_dump.specs.Pieces.{text_in};
ghost use Rattle.dex_report.specs.Parts.{FitPart, WritesParts, part_lines, parts_in, whole};

use crate::lines::LINE;
use crate::part::{Part, size_of, take_part, weight_of};
use dex_dump::{Piece, Pieces};
use dex_lanes::{Job, processors, run_jobs};
use std::alloc::{AllocError, Global};
use std::marker::Sync;
use std::mem;
use std::thread::Threads;

/// The first piece of a text begins with room for this many bytes at most.
const FIRST: usize = 1_048_576;

/// Parts that follow each other, until they are written, and then their text in pieces.
#[derive(Drop)]
pub(crate) struct Writing {
    alloc: Global,
    parts: Vec<Part>,
    text: Result<Vec<Piece>, AllocError>,
}

impl Job for Writing {
    ghost ready = { λ job. ⊤ };

    ghost ran = { WritesParts };

    fn run(&mut self) {
        let parts = mem::replace(&mut self.parts, Vec::new(self.alloc));
        self.text = text_of(self.alloc, parts);
    }
}

/// The text of parts, each of which is let go when it is written.
pub(crate) fn text_of(alloc: Global, parts: Vec<Part>) -> Result<Vec<Piece>, AllocError>
    ensures fits { IfOk result (λ pieces. All FitPart parts.items) }
    ensures text { IfOk result (λ pieces. whole pieces.items ≡ flat_map part_lines parts.items) }
{
    let mut text = Pieces::with_capacity(alloc, size_of(&parts).min(FIRST))?;
    take_parts(alloc, &mut text, parts)?;
    let pieces = text.into_pieces()?;
    Ok(pieces)
}

/// Writes parts after a text.
fn take_parts(alloc: Global, text: &mut Pieces, parts: Vec<Part>) -> Result<(), AllocError>
    ensures fits { OnOk result (All FitPart parts.items) }
    ensures text { OnOk result (text_in text.new ≡ text_in text.old ++ flat_map part_lines parts.items) }
{
    let mut line = [0; LINE];
    for part in parts {
        let room = part.room();
        make_room(alloc, text, room, room)?;
        take_part(text, &mut line, part)?;
    }
    Ok(())
}

/// Begins a piece of this room, where the last has less left than what is needed: a text that grows is copied, and a
/// new piece may stand where rows and journals lay.
pub(crate) fn make_room(
    alloc: Global,
    text: &mut Pieces,
    needed: usize,
    room: usize,
) -> Result<(), AllocError>
    ensures { OnOk result (text_in text.new ≡ text_in text.old) }
{
    if needed <= text.last.capacity() - text.last.len() {
        return Ok(());
    }
    begin_piece(alloc, text, room)
}

/// Begins a piece of this room.
pub(crate) fn begin_piece(alloc: Global, text: &mut Pieces, room: usize) -> Result<(), AllocError>
    ensures text { OnOk result (text_in text.new ≡ text_in text.old) }
    ensures last { OnOk result (text.new.last.items ≡ []) }
{
    let next = Vec::with_capacity(alloc, room)?;
    let last = mem::replace(&mut text.last, next);
    if last.is_empty() {
        return Ok(());
    }
    text.done.push(Piece::Bytes(last))?;
    Ok(())
}

/// The texts of parts that follow each other, written by some threads, and each part let go when it is written.
pub(crate) fn texts_of<R: Threads + Sync>(
    rt: &R,
    alloc: Global,
    parts: Vec<Part>,
) -> Result<Vec<Piece>, AllocError>
    ensures fits { IfOk result (λ texts. All FitPart parts.items) }
    ensures text { IfOk result (λ pieces. whole pieces.items ≡ flat_map part_lines parts.items) }
{
    let groups = groups_of(alloc, parts, processors(rt))?;
    let mut jobs = jobs_of(alloc, groups)?;
    run_jobs(rt, &mut jobs);
    let texts = written_by(alloc, jobs)?;
    let pieces = joined(alloc, texts)?;
    Ok(pieces)
}

/// Whether a group is complete where a part of this weight comes next: with half of it the parts so far would weigh
/// more than all groups up to this one should.
fn is_complete(group: usize, so_far: usize, part: usize, bound: usize) -> bool {
    LINE < group && bound < so_far.saturating_add(part / 2)
}

/// The parts in groups of those that follow each other: about this many, where no part is much larger than others, and
/// one where there is one processor. A thread costs as much time as some hundred lines, so small parts are written by
/// the thread of a larger one.
fn groups_of(alloc: Global, parts: Vec<Part>, shares: usize) -> Result<Vec<Vec<Part>>, AllocError>
    ensures { IfOk result (λ groups. parts_in groups.items ≡ parts.items) }
{
    let share = weight_of(&parts) / shares.max(1);
    let mut groups = Vec::new(alloc);
    let mut group = Vec::new(alloc);
    let mut bound = share;
    let mut weight: usize = 0;
    let mut so_far: usize = 0;
    for part in parts {
        let more = part.weight();
        if is_complete(weight, so_far, more, bound) {
            complete(alloc, &mut groups, &mut group)?;
            bound = bound.saturating_add(share);
            weight = 0;
        }
        weight = weight.saturating_add(more);
        so_far = so_far.saturating_add(more);
        group.push(part)?;
    }
    complete(alloc, &mut groups, &mut group)?;
    Ok(groups)
}

/// Puts a group after the others, and begins the next.
fn complete(
    alloc: Global,
    groups: &mut Vec<Vec<Part>>,
    group: &mut Vec<Part>,
) -> Result<(), AllocError>
    ensures groups { OnOk result (parts_in groups.new.items ≡ parts_in groups.old.items ++ group.old.items) }
    ensures next { OnOk result (group.new.items ≡ []) }
{
    let whole = mem::replace(group, Vec::new(alloc));
    groups.push(whole)?;
    Ok(())
}

/// A job for each group.
fn jobs_of(alloc: Global, groups: Vec<Vec<Part>>) -> Result<Vec<Writing>, AllocError>
    ensures { IfOk result (λ jobs. map (λ job. job.parts) jobs.items ≡ groups.items) }
{
    let mut jobs = Vec::with_capacity(alloc, groups.len())?;
    for parts in groups {
        jobs.push(Writing {
            alloc,
            parts,
            text: Err(AllocError),
        })?;
    }
    Ok(jobs)
}

/// What the jobs wrote, if each wrote its parts.
fn written_by(alloc: Global, jobs: Vec<Writing>) -> Result<Vec<Vec<Piece>>, AllocError>
    ensures { IfOk result (λ texts. AllZip (λ job text. job.text ≡ Ok text) jobs.items texts.items) }
{
    let mut texts = Vec::with_capacity(alloc, jobs.len())?;
    for job in jobs {
        let text = text_in(job)?;
        texts.push(text)?;
    }
    Ok(texts)
}

/// What a job wrote.
fn text_in(job: Writing) -> Result<Vec<Piece>, AllocError>
    ensures { result ≡ job.text }
{
    job.text
}

/// The pieces of texts, one after the other.
fn joined(alloc: Global, texts: Vec<Vec<Piece>>) -> Result<Vec<Piece>, AllocError>
    ensures { IfOk result (λ pieces. whole pieces.items ≡ flat_map (λ text. whole text.items) texts.items) }
{
    let mut pieces = Vec::new(alloc);
    for text in texts {
        add_each(&mut pieces, text)?;
    }
    Ok(pieces)
}

fn add_each(pieces: &mut Vec<Piece>, text: Vec<Piece>) -> Result<(), AllocError>
    ensures { OnOk result (pieces.new.items ≡ pieces.old.items ++ text.items) }
{
    for piece in text {
        pieces.push(piece)?;
    }
    Ok(())
}
