// The XML examples of SIAD 6.4 (4.5.1 and 4.6.1), one after the other on the input, with the line breaks that the page put into long values removed and
// `PresaInCarico` for `PresainCarico`: prints the fields that a person reads there. Each is taken by the markup and held against its schema first, as a file
// that is taken is.
#![tactic(auto)]

ghost use Rattle.track_examples.specs.FirstRecord.{IsFirst};

use days::table::Table;
use home_care::event_bits::{accesses_of, code_of, conferma_of, date_of, end_of, kind_of};
use markup::Cursor;
use markup::bytes::part;
use markup::file::document;
use nodes::children::child;
use nodes::{Node, Span};
use std::io;
use streams::read_full;
use tracks::events::{EventsRead, events};
use tracks::record::{AdmissionRead, HeadRead, Top, admission, head, top_of};
use tracks::shapes::shape_of;

fn show_number(rt: &impl Print, n: u64) -> io::Result<()> {
    println!(rt; "{n}")
}

fn show_text(rt: &impl Print, text: &[u8]) -> io::Result<()> {
    rt.write_all(text)?;
    println!(rt)
}

fn show_span(rt: &impl Print, s: &[u8], x: Span) -> io::Result<()> {
    show_text(rt, part(s, x.start, x.end))
}

fn show_head(rt: &impl Print, s: &[u8], h: HeadRead) -> io::Result<()> {
    show_text(rt, &[h.tipo])?;
    show_number(rt, h.region)?;
    show_text(rt, part(s, h.asl, h.asl.saturating_add(3)))?;
    show_number(rt, h.day)?;
    show_text(rt, part(s, h.id, h.id.saturating_add(88)))
}

fn show_scales(rt: &impl Print, scales: [u8; 6]) -> io::Result<()> {
    for scale in scales {
        print!(rt; "{scale} ")?;
    }
    println!(rt)
}

fn show_admission(rt: &impl Print, s: &[u8], a: AdmissionRead) -> io::Result<()> {
    show_number(rt, a.birth)?;
    show_text(rt, &a.prevalente)?;
    show_scales(rt, a.scales)?;
    show_span(rt, s, a.region)?;
    show_span(rt, s, a.asl)?;
    show_span(rt, s, a.comune)?;
    show_span(rt, s, a.stato)
}

// An event's fields, and the number of its evaluation.
fn show_event(rt: &impl Print, w: u64, evaluation: u64) -> io::Result<()> {
    print!(rt; "{} {} {} ", kind_of(w), date_of(w), code_of(w))?;
    println!(rt;
        "{} {} {} {evaluation}",
        end_of(w),
        accesses_of(w),
        conferma_of(w)
    )
}

fn show_events(rt: &impl Print, e: EventsRead, out: &[u64], beside: &[u64]) -> io::Result<()> {
    show_number(rt, e.count as u64)?;
    show_number(rt, u64::from(e.bad_conferma))?;
    show_number(rt, u64::from(e.zero_prevalente))?;
    for (w, evaluation) in out.iter().zip(beside).take(e.count) {
        show_event(rt, *w, *evaluation)?;
    }
    Ok(())
}

// The children of a file's first record, where that file is in the markup and of a track's shape.
fn first_record(track: u64, s: &[u8]) -> Option<Top>
    ensures { IsFirst track s.now result }
{
    let root = document(s)?;
    let Ok(_) = shape_of(track, s, root.at) else {
        return None;
    };
    let node = Node {
        at: root.at,
        levels: 12,
    };
    let one = child(s, node, b"Assistenza");
    if one.levels != 11 {
        return None;
    }
    Some(top_of(s, one.at).found)
}

fn show_taken(rt: &impl Print, t: &Table, s: &[u8]) -> io::Result<()> {
    let Some(top) = first_record(1, s) else {
        return Ok(());
    };
    show_head(rt, s, head(t, s, top))?;
    show_admission(rt, s, admission(s, top))
}

fn show_happened(rt: &impl Print, t: &Table, s: &[u8]) -> io::Result<()> {
    let Some(top) = first_record(2, s) else {
        return Ok(());
    };
    show_head(rt, s, head(t, s, top))?;
    let mut out = [0u64; 128];
    let mut beside = [0u64; 128];
    let e = events(t, s, top, &mut out, &mut beside);
    show_events(rt, e, &out, &beside)
}

// The two files, the second from the end of the first one's root.
fn run(rt: &impl Print, t: &Table, s: &[u8]) -> io::Result<()> {
    let start = Cursor { at: 0 };
    let Some(end) = start.element(s, 12) else {
        return Ok(());
    };
    show_taken(rt, t, part(s, 0, end.at))?;
    show_happened(rt, t, part(s, end.at, s.len()))
}

fn main(rt: HostRuntime) -> io::Result<()> {
    let t = days::table::make();
    let mut buf = [0u8; 65536];
    let n = read_full(&mut rt.reader(), &mut buf)?;
    run(&rt, &t, &buf[..n])
}
