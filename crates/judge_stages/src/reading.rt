// What `read` leaves of an hour: what was read, and the family list, where there is one, which names a parent for
// each of its orders.
ghost use Rattle.std.specs.Prelude.{◌≡◌};
ghost use Rattle.std.specs.Option.{ForSome};

use family_list::ReadableFamilies;
use proposal_file::HourRead;

#[derive(Clone, Copy)]
pub struct Reading<'a> {
    pub hour: HourRead<'a>,
    pub families: Option<ReadableFamilies<'a>>,
    pub ghost orders: { ForSome families (λ f. f.orders ≡ hour.case.counts.orders) },
}
