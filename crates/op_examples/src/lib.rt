//! Values from outside, beside the definitions that give them: each is computed as the crate is proved.
#![tactic(auto)]
