// An hour that was read with its zone prices, which are within their limits.
ghost use Rattle.rules.specs.Meaning.Hour.{case_of, prices_of};
ghost use Rattle.report_file.specs.Meaning.Prices.{PricesHold, PricesInRange};

use base_measures::Grains;
use proposal_file::HourRead;

#[derive(Clone, Copy)]
pub struct PricedHour<'a> {
    pub hour: HourRead<'a>,
    pub prices: [Grains; layout::ZONES],
    pub ghost hold: { PricesHold (case_of hour.case.bytes.now) (prices_of hour.case.bytes.now hour.proposal.now) prices },
    pub ghost in_range: { PricesInRange (case_of hour.case.bytes.now) (prices_of hour.case.bytes.now hour.proposal.now) },
}
