// Sources, sinks and folders, with calls that fail, and the real ones.

ghost use Rattle.std.specs.Prelude.{◌<◌, length};

use crate::texts::{bytes_of, show, text_of};
use memory::Memory;
use solver_io::{
    DirFolder, Folder, InSource, MemFolder, MemSink, MemSource, OutSink, Sink, Source, SureFolder,
    SureSink, SureSource, has_distinct_names,
};
use std::alloc::Global;
use std::fs;

// Appends how many bytes came and what the buffer holds then, four times.
fn show_reads<S: Source>(source: &mut S, into: &mut [u8], to: &mut String) -> Result<(), Memory>
    requires { 0 < length into.old }
{
    for _ in 0..4 {
        match source.read(into) {
            Ok(0) => to.push_str("end ")?,
            Ok(count) => show(&(count, text_of(into)), to)?,
            Err(_) => to.push_str(" failed ")?,
        }
    }
    Ok(())
}

// Appends how the write of each piece ends.
fn show_writes<K: Sink>(sink: &mut K, pieces: &str, to: &mut String) -> Result<(), Memory> {
    for piece in pieces.split('|') {
        show(&sink.write(piece.as_bytes()), to)?;
    }
    Ok(())
}

/// Appends what a source of these bytes gives, or what a sink keeps of these pieces, which have bars between them. Where calls may fail,
/// the second one does.
pub(crate) fn stream_answer(
    alloc: Global,
    call: &str,
    shown: &str,
    to: &mut String,
) -> Result<(), Memory> {
    let bytes = bytes_of(alloc, shown)?;
    match call {
        "failing_source" => {
            let mut source = MemSource::new(alloc, bytes, [1].to_vec(alloc)?);
            show_reads(&mut source, &mut [0u8; 2], to)
        }
        "sure_source" => {
            let mut source = SureSource::new(alloc, bytes);
            show_reads(&mut source, &mut [0u8; 3], to)
        }
        "failing_sink" => {
            let mut sink = MemSink::new(alloc, [1].to_vec(alloc)?);
            show_writes(&mut sink, text_of(&bytes), to)?;
            Ok(to.push_str(text_of(sink.bytes()))?)
        }
        _ => {
            let mut sink = SureSink::new(alloc);
            show_writes(&mut sink, text_of(&bytes), to)?;
            Ok(to.push_str(text_of(sink.bytes()))?)
        }
    }
}

// Reads the file of this name within a limit, or writes one with a text.
fn show_step<F: Folder>(
    alloc: Global,
    folder: &mut F,
    step: &str,
    to: &mut String,
) -> Result<(), Memory> {
    let (call, others) = step.split_once(' ').unwrap_or((step, ""));
    let (name, shown) = others.split_once(' ').unwrap_or((others, ""));
    if call == "write" {
        return show(&folder.write(name, shown.as_bytes()), to);
    }
    let mut into = Vec::new(alloc);
    let end = folder.read(name, shown.parse::<u16>().unwrap_or(0) as usize, &mut into);
    show(&(end, text_of(&into)), to)
}

fn show_steps<F: Folder>(
    alloc: Global,
    folder: &mut F,
    steps: &str,
    to: &mut String,
) -> Result<(), Memory> {
    for step in steps.split('|') {
        show_step(alloc, folder, step, to)?;
    }
    Ok(())
}

// Files with blanks between them, each a name and its text with an equals sign between.
fn files_of(alloc: Global, shown: &str) -> Result<Vec<(String, Vec<u8>)>, Memory> {
    let mut files = Vec::new(alloc);
    for file in shown.split(' ') {
        if let Some((name, text)) = file.split_once('=') {
            files.push((
                String::from_str(alloc, name)?,
                text.as_bytes().to_vec(alloc)?,
            ))?;
        }
    }
    Ok(files)
}

/// Appends how steps over a folder of some files end, and what it holds then as a, b and c, or whether the files have distinct names.
/// Where calls may fail, the second and the third do.
pub(crate) fn folder_answer(
    alloc: Global,
    call: &str,
    shown: &str,
    to: &mut String,
) -> Result<(), Memory> {
    let (held, steps) = shown.split_once('|').unwrap_or((shown, ""));
    let files = files_of(alloc, held)?;
    if !has_distinct_names(&files) || call == "distinct" {
        return show(&has_distinct_names(&files), to);
    }
    if call == "failing" {
        let mut folder = MemFolder::new(alloc, files, [1, 2].to_vec(alloc)?);
        show_steps(alloc, &mut folder, steps, to)?;
        return show(
            &(folder.bytes("a"), folder.bytes("b"), folder.bytes("c")),
            to,
        );
    }
    let mut folder = SureFolder::new(alloc, files);
    show_steps(alloc, &mut folder, steps, to)?;
    show(
        &(folder.bytes("a"), folder.bytes("b"), folder.bytes("c")),
        to,
    )
}

/// Appends how a step over the working directory ends, whether a file there is removed, what standard input gives, or how writes to
/// standard output end.
pub(crate) fn real_answer(
    rt: &HostRuntime,
    call: &str,
    shown: &str,
    to: &mut String,
) -> Result<(), Memory> {
    match call {
        "remove" => show(&fs::remove_file(rt, shown).is_ok(), to),
        "source" => show_reads(&mut InSource::new(rt.clone()?), &mut [0u8; 64], to),
        "sink" => show_writes(&mut OutSink::new(rt.clone()?), shown, to),
        _ => {
            let bytes = bytes_of(rt.alloc(), shown)?;
            show_step(
                rt.alloc(),
                &mut DirFolder::new(rt.clone()?),
                text_of(&bytes),
                to,
            )
        }
    }
}
