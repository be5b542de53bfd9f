//! What the program answers, and how it is printed.
ghost use Rattle.answers.specs.Refusals.{refusal_number, refusal_place};
ghost use Rattle.std.specs.Fmt.{WritesOnOk};
ghost use Rattle.std.specs.Prelude.{◌≡◌, Some};
ghost use Rattle.desk.specs.Printed.{bag_reply, open_text, pans_below, refused_at, refused_text, said, season_reply, season_text};
ghost use Rattle.text.specs.Written.{spaced};

use answers::{Played, Refusal};
use order::Bag;
use std::fmt;
use text::put_number;

/// Why a line was turned away, and which line, counted from 0.
#[derive(Clone, Copy, Debug, PartialEq, Eq)]
pub struct Refused {
    pub refusal: Refusal,
    pub line: u64,
}

/// What is answered to a command.
#[derive(Clone, Copy)]
pub enum Reply {
    Open(Bag),
    None,
    Refused(Refused),
    Season(Played),
}

impl Reply {
    /// What is turned away at a line, counted from 0.
    pub fn refused(refusal: Refusal, line: u64) -> Reply
        ensures { result ≡ refused_at line refusal }
    {
        Reply::Refused(Refused { refusal, line })
    }

    /// The answer where a bag was asked for at a line.
    pub fn of_bag(bag: Result<Option<Bag>, Refusal>, line: u64) -> Reply
        ensures { result ≡ bag_reply line bag }
    {
        match bag {
            Ok(Some(bag)) => Reply::Open(bag),
            Ok(None) => Reply::None,
            Err(refusal) => Reply::refused(refusal, line),
        }
    }

    /// The answer where a season was asked for at a line.
    pub fn of_season(season: Result<Played, Refusal>, line: u64) -> Reply
        ensures { result ≡ season_reply line season }
    {
        match season {
            Ok(played) => Reply::Season(played),
            Err(refusal) => Reply::refused(refusal, line),
        }
    }
}

// The opened pans, the lowest first, each after a blank.
fn put_pans<W: fmt::Write>(f: &mut fmt::Formatter<W>, pans: u32) -> fmt::Result
    ensures { WritesOnOk W.write_str_gives f.old result (spaced (pans_below 32 pans)) f.new }
{
    for pan in 0..32u32 {
        if (pans >> pan) % 2 == 1 {
            put_number(f, pan)?;
        }
    }
    Ok(())
}

fn put_open<W: fmt::Write>(f: &mut fmt::Formatter<W>, bag: Bag) -> fmt::Result
    ensures { WritesOnOk W.write_str_gives f.old result (open_text bag.pans bag.weight) f.new }
{
    f.write_str("open")?;
    put_pans(f, bag.pans)?;
    write!(f, ": {}", bag.weight)
}

fn put_refused<W: fmt::Write>(f: &mut fmt::Formatter<W>, refused: Refused) -> fmt::Result
    ensures { WritesOnOk W.write_str_gives f.old result (refused_text (refusal_number refused.refusal) (refusal_place refused.refusal refused.line)) f.new }
{
    let number = refused.refusal.number();
    let place = refused.refusal.place(refused.line);
    write!(f, "refused {number} at {place}")
}

fn put_season<W: fmt::Write>(f: &mut fmt::Formatter<W>, season: Played) -> fmt::Result
    ensures { WritesOnOk W.write_str_gives f.old result (season_text season.bags season.weight season.given_away season.ended_early) f.new }
{
    let Played {
        bags,
        weight,
        given_away,
        ended_early,
    } = season;
    let ending = if ended_early { ", then none" } else { "" };
    write!(f, "bags {bags}: {weight}, {given_away} given away{ending}")
}

impl fmt::Display for Reply {
    ghost output = { λ reply. Some (said reply) };

    fn fmt<W: fmt::Write>(&self, f: &mut fmt::Formatter<W>) -> fmt::Result {
        match *self {
            Reply::Open(bag) => put_open(f, bag),
            Reply::None => f.write_str("none"),
            Reply::Refused(refused) => put_refused(f, refused),
            Reply::Season(played) => put_season(f, played),
        }
    }
}
