// Identifiers as numbers, and the ack types of model.rs.
#![tactic(auto)]

ghost use Rattle.std.specs.Prelude.{◌≡◌};
ghost use Rattle.model.specs.Model.{new_id, id_of, does, ack_type, rule_of, ack_rule};
ghost use Rattle.model.specs.Refusal.{refusal_number};

use AckCount::{DeadLetter, Dequeue, Expiry, Uncounted};
use AckEffect::{Frees, Marks, Redelivers, Removes, Stays};
use AckRange::{Between, Cumulative, Empty, Last};

// ConsumerId and ProducerId: the host's numbers for their texts, one to one.
// The value tells most identifiers apart, so it is compared first.
#[derive(Clone, Copy, PartialEq, Eq)]
pub struct Id {
    pub value: i64,
    pub session: i64,
    pub conn: u64,
}

impl Id {
    pub fn new(conn: u64, session: i64, value: i64) -> Id
        ensures { result ≡ new_id conn session value }
    {
        Id {
            conn,
            session,
            value,
        }
    }

    // The identifier in three words.
    pub fn of_words(conn: u64, session: u64, value: u64) -> Id
        ensures { result ≡ id_of conn session value }
    {
        Id {
            conn,
            session: words::signed_of(session),
            value: words::signed_of(value),
        }
    }
}

// Why a call is refused.
#[derive(Clone, Copy, PartialEq, Eq)]
pub enum Refusal {
    Short,
    NotSound,
    Arguments,
    NumberHeld,
    RowsFull,
    ConsumerHere,
    ConsumersFull,
    ProducersFull,
    CallsUsedUp,
    NotOpen,
    ShareUsedUp,
    ReadingsTurned,
}

// Its number in the papers; 0 is for a call that is not refused.
impl From<Refusal> for u64 {
    ghost from_gives = { λ r n. n ≡ refusal_number r };

    fn from(refusal: Refusal) -> u64 {
        match refusal {
            Refusal::Short => 1,
            Refusal::NotSound => 2,
            Refusal::Arguments => 3,
            Refusal::NumberHeld => 4,
            Refusal::RowsFull => 5,
            Refusal::ConsumerHere => 6,
            Refusal::ConsumersFull => 7,
            Refusal::ProducersFull => 8,
            Refusal::CallsUsedUp => 9,
            Refusal::NotOpen => 10,
            Refusal::ShareUsedUp => 14,
            Refusal::ReadingsTurned => 17,
        }
    }
}

#[derive(Clone, Copy, PartialEq, Eq)]
pub enum AckType {
    Delivered,
    Poison,
    Standard,
    Redelivered,
    Individual,
    Unmatched,
    Expired,
    Other,
}

impl AckType {
    pub const DELIVERED: u8 = 0;

    pub const POISON: u8 = 1;

    pub const STANDARD: u8 = 2;

    pub const REDELIVERED: u8 = 3;

    pub const INDIVIDUAL: u8 = 4;

    pub const UNMATCHED: u8 = 5;

    pub const EXPIRED: u8 = 6;

    fn rule(self) -> AckRule
        ensures { result ≡ rule_of self }
    {
        match self {
            AckType::Delivered => does(Between, Frees, Between, Frees, Empty, Uncounted),
            AckType::Poison => does(Between, Removes, Between, Marks, Between, DeadLetter),
            AckType::Standard => does(Cumulative, Removes, Cumulative, Marks, Cumulative, Dequeue),
            AckType::Redelivered => does(Between, Redelivers, Between, Marks, Empty, Uncounted),
            AckType::Individual => does(Last, Removes, Last, Marks, Last, Dequeue),
            AckType::Unmatched => does(Cumulative, Removes, Cumulative, Marks, Cumulative, Dequeue),
            AckType::Expired => does(Between, Removes, Between, Marks, Between, Expiry),
            AckType::Other => does(Empty, Stays, Between, Marks, Empty, Uncounted),
        }
    }
}

impl From<u8> for AckType {
    ghost from_gives = { λ byte kind. kind ≡ ack_type byte };

    #[tactic(auto, unfolding(crate::specs::Model::ack_type))]
    fn from(byte: u8) -> AckType {
        match byte {
            AckType::DELIVERED => AckType::Delivered,
            AckType::POISON => AckType::Poison,
            AckType::STANDARD => AckType::Standard,
            AckType::REDELIVERED => AckType::Redelivered,
            AckType::INDIVIDUAL => AckType::Individual,
            AckType::UNMATCHED => AckType::Unmatched,
            AckType::EXPIRED => AckType::Expired,
            _ => AckType::Other,
        }
    }
}

// Which entries an ack means: none, those from its first to its last, all up to its last, its last alone.
#[derive(Clone, Copy, PartialEq, Eq)]
pub enum AckRange {
    Empty,
    Between,
    Cumulative,
    Last,
}

// What becomes of such an entry in flight: it stays, is freed, is freed and marked as acknowledged in a transaction,
// is removed, or counts one more redelivery.
#[derive(Clone, Copy, PartialEq, Eq)]
pub enum AckEffect {
    Stays,
    Frees,
    Marks,
    Removes,
    Redelivers,
}

// What a removed entry counts as; a dead letter that is not persistent is discarded.
#[derive(Clone, Copy, PartialEq, Eq)]
pub enum AckCount {
    Uncounted,
    Dequeue,
    Expiry,
    DeadLetter,
}

// What an ack of some type does.
#[derive(Clone, Copy, PartialEq, Eq)]
pub struct AckRule {
    // Of a present consumer, outside a transaction.
    pub range: AckRange,
    pub effect: AckEffect,
    // Inside one.
    pub tx_range: AckRange,
    pub tx_effect: AckEffect,
    // Of a consumer that left: the reserved entries that it removes, by their sequence numbers.
    pub reserved: AckRange,
    pub counts: AckCount,
}

fn does(
    range: AckRange,
    effect: AckEffect,
    tx_range: AckRange,
    tx_effect: AckEffect,
    reserved: AckRange,
    counts: AckCount,
) -> AckRule
    ensures { result ≡ does range effect tx_range tx_effect reserved counts }
{
    AckRule {
        range,
        effect,
        tx_range,
        tx_effect,
        reserved,
        counts,
    }
}

impl AckRule {
    // What an ack with this type byte does.
    #[tactic(auto, unfolding(crate::specs::Model::ack_rule))]
    pub fn of(byte: u8) -> AckRule
        ensures { result ≡ ack_rule byte }
    {
        AckType::from(byte).rule()
    }
}
