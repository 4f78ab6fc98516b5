// THE LAYOUT of every format, in one place: where each field stands, how many bytes it has, and how many records
// there may be. One block per format, in the order of its bytes. `rules` has the same numbers in `Meaning/Layout`;
// the proofs hold the code to those.
#![tactic(auto)]

// THE MARK at the start of every file: L, T and a letter of its own. The version follows it in 16 bits.
pub const MARK_FIRST: u8 = b'L';

pub const MARK_SECOND: u8 = b'T';

pub const CASE_LETTER: u8 = b'C';

pub const PROPOSAL_LETTER: u8 = b'P';

pub const FAMILY_LETTER: u8 = b'F';

pub const COLUMNED_LETTER: u8 = b'K';

pub const REPORT_LETTER: u8 = b'R';

pub const MARK: usize = 3;

// HOW MANY there may be of each.
pub const ZONES: usize = 16;

pub const BRANCHES: usize = 64;

pub const LINKS: usize = 64;

pub const ORDERS: usize = 512;

// CASE, header of 14 bytes: mark, version, zones, branches, links, orders, tolerance. A refusal names these offsets
// (S-2).
pub const CASE_ZONES_AT: u32 = 5;

pub const CASE_BRANCHES_AT: u32 = 6;

pub const CASE_LINKS_AT: u32 = 7;

pub const CASE_ORDERS_AT: u32 = 8;

pub const CASE_TOLERANCE_AT: u32 = 10;

pub const CASE_HEADER: usize = 14;

// a branch: its margin, then a PTDF for each zone
pub const MARGIN: usize = 4;

pub const PTDF: usize = 4;

// a link: from, to, capacity; in a case of version 2 the contracted volume too (S-4)
pub const LINK_TO_AT: usize = 1;

pub const LINK_CAPACITY_AT: usize = 2;

pub const LINK: usize = 6;

pub const CONTRACTED: usize = 4;

// an order: zone, side, quantity, price
pub const ORDER_SIDE_AT: usize = 1;

pub const ORDER_QUANTITY_AT: usize = 2;

pub const ORDER_PRICE_AT: usize = 6;

pub const ORDER: usize = 10;

// the longest case: every count at its greatest, version 2
pub const LONGEST_CASE: usize = CASE_HEADER
    + BRANCHES * (MARGIN + PTDF * ZONES)
    + LINKS * (LINK + CONTRACTED)
    + ORDERS * ORDER;

// PROPOSAL, header of 13 bytes: mark, version, LTA share, system price; then a number for each order, link and branch
pub const PROPOSAL_SHARE_AT: usize = 5;

pub const PROPOSAL_SYSTEM_AT: usize = 9;

pub const PROPOSAL_HEADER: usize = 13;

pub const PROPOSAL_NUMBER: usize = 4;

// FAMILY LIST (S-11), header of 5 bytes: mark, version; then a parent for each order
pub const FAMILY_HEADER: usize = 5;

pub const PARENT: usize = 2;

// DUMP (S-5): values of 64 bits; the first two are the LTA share and the system price
pub const DUMP_VALUE: usize = 8;

pub const DUMP_OPENING: usize = 2;

// REPORT, 48 bytes and a price for each zone: mark, version, number, zones, a zero, five totals, the prices
pub const REPORT_VERSION_AT: usize = 3;

pub const REPORT_NUMBER_AT: usize = 5;

pub const REPORT_ZONES_AT: usize = 6;

pub const REPORT_ZERO_AT: usize = 7;

pub const WELFARE_AT: usize = 8;

pub const BOUND_AT: usize = 16;

pub const GAP_AT: usize = 24;

pub const RENT_AT: usize = 32;

pub const OWED_AT: usize = 40;

pub const PRICES_AT: usize = 48;

pub const ZONE_PRICE: usize = 8;

// the room that a report buffer must have, for any number of zones
pub const REPORT_ROOM: usize = PRICES_AT + ZONE_PRICE * ZONES;

// TEXT of an hour for the desk: the room that it must have
pub const DESK_ROOM: usize = 1024;

// A NUMBER OF 64 BITS is two words of 32, the low one first; one in the high word counts this many
pub const WORD_VALUES: u64 = 4294967296;
