//! The best bag with so much of each kind, by tables of least costs in a lent room: fast where the target is small.
//!
//! A row for each kind holds for each weight the least cost of a choice of this kind's pans that weighs so much. Costs are
//! such that the least cost is the best choice of its weight, and those of different kinds add up: so the rows are joined
//! kind by kind, and the first weight of the window whose least cost tells of few enough pans is the answer, pans and all.
//! Weights are in the scale's unit, at most 1,000,000; ages count bags; pans and kinds count from 0.
#![tactic(auto)]

mod answer;
mod blocks;
mod joins;
mod plan;
mod rows;
mod search;
mod tables;

pub use answer::{best, room_for};
