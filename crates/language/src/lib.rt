// The language of scripts: lines, words and calls, and the text of answers.
#![tactic(auto)]

pub mod answer;
pub mod call;
pub mod mistake;
pub mod script;
pub mod verb;
pub mod words;
