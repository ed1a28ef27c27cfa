//! Rules on the texts that a node takes, and what the steps of all mechanisms share.
#![tactic(auto)]

mod bodies;
mod delivery;
mod growing;
mod hook;
mod known;
mod laws;
mod making;
mod names;
mod note_list;
mod openings;
mod order;
mod own_texts;
mod phase;
mod reading;
mod role_state;
mod rule;
mod saying;
mod sealing;
mod shown;
mod steps;
mod trio;
mod values;

pub use bodies::{one_value, two_nonces, two_values};
pub use delivery::Delivery;
pub use growing::{
    asked, beside, grown, grown_and_judged, grown_by, judged_by, read_by, said_still, said_with,
};
pub use hook::{Hook, Judgement};
pub use known::{Asked, Challenged, Challenging, Sent, Stamped};
pub use laws::states_are_runs;
pub use making::{
    SlotValue, body_of, message_of, name_term, nonce_term, stamp_term, tag_term, text_term,
};
pub use names::{Pair, Three};
pub use note_list::{NoteList, Shown, add};
pub use openings::{key_between, open_item, test_item};
pub use order::in_slot_order;
pub use own_texts::own_text;
pub use phase::Phase;
pub use reading::{item_at, read_body, read_message};
pub use role_state::{Reply, RoleState, Taken};
pub use rule::{Rule, judge_by};
pub use saying::{Said, challenge, nonce_alone, say_checked, say_item, say_sealed};
pub use sealing::{Unsealed, draw_nonce, draw_part, seal_item};
pub use shown::{
    AnswerTexts, Challenge, ChallengeText, ChallengerTexts, CheckedToken, FirstTexts, SealedToken,
    SecondTexts,
};
pub use steps::{compose, first, prepare};
pub use trio::{
    Family, Trio, by_nonces, by_stamps, nonces_tag, stamps_tag, trio_by_nonces, trio_by_stamps,
};
pub use values::{
    compare_nonce, compare_stamp, key_at, nonce_at, part_at, stamp_at, take_text, take_texts,
    take_token, text_at,
};
