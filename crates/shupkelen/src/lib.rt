//! The library as other languages link it: each public call with numbers and slices alone, under one prefix. Every call returns the refusal's number, 0
//! where there is none (`shupkelen_compare` and `shupkelen_version` alone return what they say), and puts what it says at the front of `answer`: three
//! words, as far as that goes, all 0 on a refusal, but where a call's own page says otherwise. Lists are words, four a record; `pool` has 8,192 bytes or
//! more and `table` 257 words or more, a name table; a result buffer `res` 8,192 words or more, a work buffer 16,384. Refusals are given in the order in
//! which they are looked for. Past what is written, and on a refusal but 5, a result buffer is as before; a work buffer may hold anything before a call
//! and is all zero after it, except for 10, which changes nothing. include/shupkelen.h says the same to C.
#![tactic(auto)]

pub mod on_files;
pub mod on_lists;
pub mod on_names;
pub mod on_products;
pub mod on_sets;
pub mod on_values;
pub mod version;
