// The numbers of the table: symbols, productions, places, attributes, and the occurrences that rules take.
// Numbers and no enums: each question answers for every byte, so an enum would add a conversion and save no case.
use grammar::Occurrence;

// the symbols past the first, which is the plan
pub(crate) const STEP: u8 = 1;

pub(crate) const TERM: u8 = 2;

// the productions
pub(crate) const PLAN: u8 = 0;

pub(crate) const STEP_HOLE: u8 = 1;

pub(crate) const TERM_HOLE: u8 = 2;

pub(crate) const CHAIN: u8 = 3;

pub(crate) const DECLARATION: u8 = 4;

pub(crate) const BLOCK: u8 = 5;

pub(crate) const NUMBER: u8 = 6;

pub(crate) const NAME: u8 = 7;

pub(crate) const LESS: u8 = 8;

// the places of a production
pub(crate) const OWN: u8 = 0;

pub(crate) const FIRST: u8 = 1;

pub(crate) const SECOND: u8 = 2;

// the attributes of a plan, a step and a term
pub(crate) const PLAN_BAD: u8 = 0;

pub(crate) const STEP_IN: u8 = 0;

pub(crate) const STEP_ENV: u8 = 1;

pub(crate) const STEP_OUT: u8 = 2;

pub(crate) const STEP_BAD: u8 = 3;

pub(crate) const TERM_ENV: u8 = 0;

pub(crate) const TERM_TYPE: u8 = 1;

pub(crate) const TERM_BAD: u8 = 2;

// what rules take
pub(crate) const IN: Occurrence = Occurrence {
    place: OWN,
    attribute: STEP_IN,
};

pub(crate) const ENV: Occurrence = Occurrence {
    place: OWN,
    attribute: STEP_ENV,
};

pub(crate) const FIRST_OUT: Occurrence = Occurrence {
    place: FIRST,
    attribute: STEP_OUT,
};

pub(crate) const FIRST_BAD: Occurrence = Occurrence {
    place: FIRST,
    attribute: STEP_BAD,
};

pub(crate) const SECOND_OUT: Occurrence = Occurrence {
    place: SECOND,
    attribute: STEP_OUT,
};

pub(crate) const SECOND_BAD: Occurrence = Occurrence {
    place: SECOND,
    attribute: STEP_BAD,
};

pub(crate) const ENV_OF_TERM: Occurrence = Occurrence {
    place: OWN,
    attribute: TERM_ENV,
};

pub(crate) const FIRST_TYPE: Occurrence = Occurrence {
    place: FIRST,
    attribute: TERM_TYPE,
};

pub(crate) const SECOND_TYPE: Occurrence = Occurrence {
    place: SECOND,
    attribute: TERM_TYPE,
};

pub(crate) const FIRST_TERM_BAD: Occurrence = Occurrence {
    place: FIRST,
    attribute: TERM_BAD,
};

pub(crate) const SECOND_TERM_BAD: Occurrence = Occurrence {
    place: SECOND,
    attribute: TERM_BAD,
};
