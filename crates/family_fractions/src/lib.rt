// Row 28 (request S-11): a child accepted in a larger fraction than its parent.
#![tactic(auto)]

ghost use Rattle.std.specs.Prelude.{◌≡◌, ◌<◌};
ghost use Rattle.rules.specs.Meaning.Hour.{case_of, plan_of};
ghost use Rattle.rules.specs.Meaning.Families.{parent_of};
ghost use Rattle.rules.specs.Meaning.Verdict.{exceeds_parent, excess_fraction};
ghost use Rattle.base_causes.specs.Meaning.Causes.{failing};
ghost use Rattle.base_causes.specs.Meaning.Place.{place_of};

mod listed;

use case_orders::order_at;
pub use listed::ListedHour;
use proposal_file::volume_at;

// Whether the fraction of order i exceeds its parent's.
fn exceeds_parent(listed: ListedHour<'_>, i: usize) -> bool
    requires i_lt_orders { i < listed.families.orders }
    ensures { result ≡ exceeds_parent (case_of listed.entry.filled.hour.case.bytes.now)
        (plan_of listed.entry.filled.hour.case.bytes.now listed.entry.filled.hour.proposal.now) i
        (parent_of listed.entry.families.list.now i) }
{
    let Some(parent) = listed.families.parent(i) else {
        return false;
    };
    let hour = listed.filled.hour;
    let child = order_at(hour.case, i);
    let above = order_at(hour.case, parent);
    let quantity = child.quantity;
    let parent_quantity = above.quantity;
    let volume = volume_at(hour, i);
    let parent_volume = volume_at(hour, parent);
    volume.greater_part(quantity, parent_volume, parent_quantity)
}

// The first child whose fraction exceeds its parent's.
pub fn first_over_parent(listed: ListedHour<'_>) -> Option<usize>
    ensures { place_of result ≡ failing (excess_fraction listed.entry.families.list.now
        (case_of listed.entry.filled.hour.case.bytes.now)
        (plan_of listed.entry.filled.hour.case.bytes.now listed.entry.filled.hour.proposal.now)) }
{
    for i in 0..listed.families.orders {
        if exceeds_parent(listed, i) {
            return Some(i);
        }
    }
    None
}
