//! Taking the next number of a band.
ghost use Rattle.std.specs.Prelude.{◌≡◌, ◌<◌, [], MatchOption};
ghost use Rattle.cell_registry.specs.Cells.{AreLimits};
ghost use Rattle.cell_registry.specs.Rule.{Has, seen_cell};
ghost use Rattle.cell_registry.specs.Bands.{limit_of};
ghost use Rattle.cell_registry.specs.Steps.{Claimed, FoundNone, MayClaim};

use crate::knowledge::Knowledge;
use crate::limits::{Band, Limits};
use crate::rule::{self, Rule};
use crate::words::claim_place;
use atomic_table::{Seat, Shared};

/// Claims the next number of the band, unless all `limit` numbers are given. The claim word only rises, so a claim
/// fails at most as often as the band has numbers.
pub(crate) fn claim(
    shared: &Shared<u8, Knowledge, Limits, Rule>,
    seat: &mut Seat<u8, Knowledge>,
    band: Band,
    limit: u16,
) -> Option<u16>
    requires table { (seat.old.table_id ≡ shared.now.table_id) × (2 < shared.now.table_id.words) ×
        (seat.old.me.1 ≡ []) }
    requires limit { (limit ≡ limit_of band shared.now.key) × (limit ≡ limit_of band seat.old.me.0.limits) ×
        AreLimits seat.old.me.0.limits }
    requires may { Has seat.old.me.0.fibers seat.old.me.0.number ×
        MayClaim band (seen_cell seat.old.me.0 seat.old.me.0.number).stage }
    ensures seat { (seat.new.table_id ≡ seat.old.table_id) × (seat.new.me.1 ≡ []) }
    ensures claim { MatchOption result (FoundNone band seat.old.me.0 seat.new.me.0)
        (λ n. Claimed band seat.old.me.0 n seat.new.me.0) }
{
    let place = claim_place(band);
    let mut next = shared.load::<rule::Nexts>(seat, place);
    while next < u64::from(limit) {
        let found = shared.compare_exchange::<rule::Claims>(seat, place, next, next + 1);
        if found == next {
            return Some(next as u16);
        }
        next = found;
    }
    None
}
