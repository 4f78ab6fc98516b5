// An hour whose proposal passes row 21, with a list that names a parent for each of its orders: rows 16 and 17 passed.
ghost use Rattle.std.specs.Prelude.{◌≡◌};

use family_list::ReadableFamilies;
use proposal_file::FilledHour;

#[derive(Clone, Copy)]
pub struct ListedHour<'a> {
    pub filled: FilledHour<'a>,
    pub families: ReadableFamilies<'a>,
    pub ghost orders: { families.orders ≡ filled.hour.case.counts.orders },
}
