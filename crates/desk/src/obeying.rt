//! What a command does to what is kept.
ghost use Rattle.desk.specs.Kept.{state_of};
ghost use Rattle.desk.specs.Obeys.{Obeys};

use crate::kept::Desk;
use crate::printed::Reply;
use crate::replies::{bag_reply, fall_reply, mix_reply, mix_season_reply, season_reply};
use text::{Command, Numbers, Word};

/// Does what a command asks for, and answers what is printed, if anything is. The line is where the command stands,
/// counted from 0.
pub fn obey(desk: &mut Desk, command: Command, line: u64) -> Option<Reply>
    ensures { Obeys command line (state_of desk.old) (state_of desk.new) result }
{
    let Command { word, numbers } = command;
    match (word, numbers) {
        (Word::Rule, Numbers::Many(numbers)) => {
            desk.rule = numbers;
            None
        }
        (Word::Pans, Numbers::Many(numbers)) => {
            desk.ring.pans = numbers;
            None
        }
        (Word::Ages, Numbers::Many(numbers)) => {
            desk.ring.ages = numbers;
            None
        }
        (Word::Handfuls, Numbers::Many(numbers)) => {
            desk.ring.handfuls = numbers;
            None
        }
        (Word::Bag, _) => Some(bag_reply(
            &desk.rule,
            &mut desk.ring.pans,
            &mut desk.ring.ages,
            &mut desk.entries,
            &mut desk.bytes,
            line,
        )),
        (Word::Fall, Numbers::Two(numbers)) => {
            let [pan, grams] = numbers;
            fall_reply(&mut desk.ring.pans, pan, grams, line)
        }
        (Word::Bags, Numbers::One(numbers)) => Some(season_reply(
            &desk.rule,
            &mut desk.ring.pans,
            &mut desk.ring.ages,
            &desk.ring.handfuls,
            numbers[0],
            &mut desk.entries,
            &mut desk.bytes,
            line,
        )),
        (Word::Kinds, Numbers::Many(numbers)) => {
            desk.ring.kinds = numbers;
            None
        }
        (Word::Mix, Numbers::Zero) => Some(mix_reply(
            &desk.rule,
            &mut desk.ring.pans,
            &mut desk.ring.ages,
            &desk.ring.kinds,
            &mut desk.entries,
            &mut desk.keys,
            line,
        )),
        (Word::Mix, Numbers::One(numbers)) => Some(mix_season_reply(
            &desk.rule,
            &mut desk.ring.pans,
            &mut desk.ring.ages,
            &desk.ring.kinds,
            &desk.ring.handfuls,
            numbers[0],
            &mut desk.entries,
            &mut desk.keys,
            line,
        )),
        _ => unreachable!(),
    }
}
