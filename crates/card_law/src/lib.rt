// The card: the file that a site brings its first table on, from its bytes to its entries.
// Code: how much a program reads of one. specs/: the definitions, and what is proved about them.
#![tactic(auto)]

use calls::TABLE;

// A program reads so many bytes of the file.
pub const CARD_READ: usize = 4096;

// It keeps so many entries: one more than a first table has tells that there are more.
pub const CARD_KEPT: usize = TABLE + 1;
