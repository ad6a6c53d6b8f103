//! What the sessions of `serve` and `race` share: what their texts mean by the definitions, and the laws that a session over a board
//! has such a text.
//!
//! It has no code: the call that holds a session is that of query_text, and each command has a crate of its own. It knows no build,
//! and is proved beside the crate that has those.
#![tactic(auto)]
