// Replies in numbers. Which reply a call's answer takes, and with which numbers, is promised; how it is written is tested.
use crate::say;
use paging::IndicatorPlace;
use printing::{Lines, Outputs};
use refusals::Refusal;
use std::fmt;
use std::fmt::Write;

#[derive(Clone, Copy, Debug, PartialEq, Eq)]
pub enum Reply {
    Chip(u32),
    Beacon(u32),
    Beacons(u32, u32),
    Indicator(IndicatorPlace),
    Reserved,
    Owned(u32),
    Data1(u32),
    Tfci1(u32),
    Midamble(u32),
    Tpc(u32),
    Tfci2(u32),
    Data2(u32),
    Guard(u32),
}

// The last of `length` bits from `first`.
fn last(first: u32, length: u32) -> u32 {
    first.wrapping_add(length).wrapping_sub(1)
}

impl fmt::Display for Reply {
    fn fmt<W: fmt::Write>(&self, f: &mut fmt::Formatter<W>) -> fmt::Result {
        match *self {
            Reply::Chip(p) => write!(f, "chip {p}"),
            Reply::Beacon(t) => write!(f, "beacon {t}"),
            Reply::Beacons(t, u) => write!(f, "beacon {t} {u}"),
            Reply::Indicator(place) => {
                let first = last(place.first, place.length);
                let second = last(place.second, place.length);
                write!(
                    f,
                    "frame {} q {} bits {}..{first} {}..{second}",
                    place.frame, place.q, place.first, place.second
                )
            }
            Reply::Reserved => write!(f, "reserved"),
            Reply::Owned(q) => write!(f, "q {q}"),
            Reply::Data1(n) => write!(f, "data1 {n}"),
            Reply::Tfci1(n) => write!(f, "tfci1 {n}"),
            Reply::Midamble(n) => write!(f, "midamble {n}"),
            Reply::Tpc(n) => write!(f, "tpc {n}"),
            Reply::Tfci2(n) => write!(f, "tfci2 {n}"),
            Reply::Data2(n) => write!(f, "data2 {n}"),
            Reply::Guard(n) => write!(f, "guard {n}"),
        }
    }
}

// A reply as a line, or a refusal.
pub fn said(out: &mut Lines<'_, impl Outputs>, answer: Result<Reply, Refusal>) {
    match answer {
        Err(refusal) => say::refused(out, refusal),
        Ok(reply) => {
            let _ = writeln!(out, "{reply}");
        }
    }
}
