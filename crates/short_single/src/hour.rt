// An accepted hour in one value, with what the shortfalls need of it. The type says what its judgement established.
ghost use Rattle.rules.specs.Meaning.Hour.{case_of, plan_of, prices_of, fb_part};
ghost use Rattle.base_measures.specs.Meaning.TenthsHold.{TenthsHold};
ghost use Rattle.report_file.specs.Meaning.Prices.{PricesHold};
ghost use Rattle.short_single.specs.Meaning.HourAccepted.{HourAccepted};

use base_measures::{Grains, Tenths};
use proposal_file::HourRead;

// Its zone prices and the flow-based part of each zone's net position stand with it.
#[derive(Clone, Copy)]
pub struct AcceptedHour<'a> {
    pub hour: HourRead<'a>,
    pub prices: [Grains; layout::ZONES],
    pub parts: [Tenths; layout::ZONES],
    pub ghost accepted: { HourAccepted hour.«case».bytes.now hour.proposal.now hour.«case».counts hour.opening },
    pub ghost prices_hold: { PricesHold (case_of hour.«case».bytes.now)
        (prices_of hour.«case».bytes.now hour.proposal.now) prices },
    pub ghost parts_hold: { TenthsHold
        (fb_part (case_of hour.«case».bytes.now) (plan_of hour.«case».bytes.now hour.proposal.now)) parts },
}
