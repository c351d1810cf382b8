//! Breaking rules: what they mean, and the laws of their meaning.
//!
//! specs/ says what a breaking rule is, what the word rule and the cutting rule answer and how many
//! rows a line has; proofs/ shows that both rules keep the laws of a rule, and for every rule that of
//! two widths from 1 up the wider gives no more rows. There is no code here: it stands in `wrap`.

#![tactic(auto)]
