//! Ranks from the components of a table: the rank of a world is the number of its component.

use crate::components::number_at;
use crate::paths::{flags_of, set_flag};
use crate::rank::Rank;
use crate::resting::Resting;
use crate::table::{FAULT, Row};
use crate::walking::has;
use std::alloc::{AllocError, Global};

/// A world, and its component.
#[derive(Clone, Copy)]
struct Member {
    component: u32,
    world: u32,
}

/// The ranks of all worlds, and the worlds in components that a fair schedule need not leave.
#[derive(Drop)]
pub struct Ranking {
    /// The rank of each world.
    pub ranks: Vec<Rank>,
    /// The flags of the worlds in components in which a fair schedule can stay for ever.
    pub stuck: Vec<bool>,
}

/// Returns the ranks of all worlds, from their components.
pub fn rank_all<W: Resting>(
    alloc: Global,
    worlds: &W,
    rows: &[Row],
    components: &[u32],
) -> Result<Ranking, AllocError> {
    let members = members_of(alloc, components)?;
    let mut ranking = Ranking {
        ranks: begun(alloc, components)?,
        stuck: flags_of(alloc, components.len(), false)?,
    };
    let mut start = 0;
    for end in 1..members.len().saturating_add(1) {
        if component_at(members.as_slice(), end) != component_at(members.as_slice(), start) {
            rank_one(
                worlds,
                rows,
                components,
                members.as_slice(),
                start,
                end,
                &mut ranking,
            )?;
            start = end;
        }
    }
    Ok(ranking)
}

// Returns the members of all components, by the numbers of the components.
fn members_of(alloc: Global, components: &[u32]) -> Result<Vec<Member>, AllocError> {
    let mut members = Vec::new(alloc);
    let mut world: u32 = 0;
    for component in components {
        members.push(Member {
            component: *component,
            world,
        })?;
        world = world.saturating_add(1);
    }
    members.sort_by_key(|it: &Member| it.component)?;
    Ok(members)
}

// Returns the ranks before any quiet world or helpful fiber is known.
fn begun(alloc: Global, components: &[u32]) -> Result<Vec<Rank>, AllocError> {
    let mut ranks = Vec::new(alloc);
    for component in components {
        ranks.push(Rank {
            quiet: false,
            rank: *component,
            helper: 0,
        })?;
    }
    Ok(ranks)
}

// The component of the member at a place, if there is one.
fn component_at(members: &[Member], place: usize) -> Option<u32> {
    let member = members.get(place)?;
    Some(member.component)
}

// Sets the ranks of one component, whose members have the places from `start` to before `end`.
fn rank_one<W: Resting>(
    worlds: &W,
    rows: &[Row],
    components: &[u32],
    members: &[Member],
    start: usize,
    end: usize,
    ranking: &mut Ranking,
) -> Result<(), AllocError> {
    let quiet = is_quiet(worlds, rows, ranking.ranks.as_slice(), members, start, end)?;
    let helper = helper_of(rows, components, members, start, end);
    let stuck = !quiet && helper.is_none();
    for place in start..end {
        if let Some(member) = members.get(place) {
            set_rank(&mut ranking.ranks, member.world, quiet, helper.unwrap_or(0));
            set_flag(&mut ranking.stuck, member.world, stuck);
        }
    }
    Ok(())
}

// Sets whether a world is quiet, and its helpful fiber.
fn set_rank(ranks: &mut Vec<Rank>, world: u32, quiet: bool, helper: u16) {
    if (world as usize) < ranks.len() {
        let rank = ranks[world as usize].rank;
        ranks[world as usize] = Rank {
            quiet,
            rank,
            helper,
        };
    }
}

// Whether the worlds of a component are at rest: each entry leads to a member or to a quiet world, and the first member
// is at rest. Then all are, since entries lead from the first member to the others.
fn is_quiet<W: Resting>(
    worlds: &W,
    rows: &[Row],
    ranks: &[Rank],
    members: &[Member],
    start: usize,
    end: usize,
) -> Result<bool, AllocError> {
    for place in start..end {
        if let Some(member) = members.get(place) {
            if !keeps(rows, ranks, *member) {
                return Ok(false);
            }
        }
    }
    match members.get(start) {
        Some(first) if (first.world as usize) < worlds.len() => {
            worlds.is_at_rest(first.world as usize)
        }
        _ => Ok(false),
    }
}

// Whether each entry at a member leads to a member or to a quiet world.
fn keeps(rows: &[Row], ranks: &[Rank], member: Member) -> bool {
    if let Some(row) = rows.get(member.world as usize) {
        for edge in row.edges.as_slice() {
            if !keeps_at(ranks, member, edge.target) {
                return false;
            }
        }
    }
    true
}

// Whether the world `to` is a member or quiet.
fn keeps_at(ranks: &[Rank], member: Member, to: u32) -> bool {
    match ranks.get(to as usize) {
        None => false,
        Some(rank) => rank.quiet || rank.rank == member.component,
    }
}

// The first fiber that helps (`helps`), if there is one.
fn helper_of(
    rows: &[Row],
    components: &[u32],
    members: &[Member],
    start: usize,
    end: usize,
) -> Option<u16> {
    let first = members.get(start)?;
    let row = rows.get(first.world as usize)?;
    let mut fiber: u16 = 0;
    for _ in 0..row.edges.len() {
        if helps(rows, components, members, start, end, fiber) {
            return Some(fiber);
        }
        fiber = fiber.saturating_add(1);
    }
    None
}

// Whether each step of this fiber, and each that makes an entry of it, leads out of the component.
fn helps(
    rows: &[Row],
    components: &[u32],
    members: &[Member],
    start: usize,
    end: usize,
    fiber: u16,
) -> bool {
    for place in start..end {
        if let Some(member) = members.get(place) {
            if stays(rows, components, member.world, fiber)
                || makes_within(rows, components, member.world, fiber).is_some()
            {
                return false;
            }
        }
    }
    true
}

/// The first fiber whose step stays in the component of a world and makes an entry of `fiber`, if there is one.
pub fn makes_within(rows: &[Row], components: &[u32], world: u32, fiber: u16) -> Option<u16> {
    let row = rows.get(world as usize)?;
    let mut by: u16 = 0;
    for edge in row.edges.as_slice() {
        if has(edge.made.as_slice(), fiber) && stays(rows, components, world, by) {
            return Some(by);
        }
        by = by.saturating_add(1);
    }
    None
}

/// Whether the step of a fiber leads from a world to one of the same component, or the fiber isn't born.
pub fn stays(rows: &[Row], components: &[u32], world: u32, fiber: u16) -> bool {
    match target_at(rows, world, fiber) {
        None => true,
        Some(to) => {
            to != FAULT && number_at(components, to, FAULT) == number_at(components, world, FAULT)
        }
    }
}

/// Where the step of a fiber leads, if the fiber is born.
pub fn target_at(rows: &[Row], world: u32, fiber: u16) -> Option<u32> {
    let row = rows.get(world as usize)?;
    let edge = row.edges.get(usize::from(fiber))?;
    Some(edge.target)
}
