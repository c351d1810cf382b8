//! Tests of the height of a sheet and of the table question: the worked examples, tables at their edges,
//! one mixed sheet at many widths against stored answers, and the highest sheet.

#![tactic(auto)]

#[cfg(test)]
mod answers;
#[cfg(test)]
mod edges;
#[cfg(test)]
mod highest;
#[cfg(test)]
mod sheets;
#[cfg(test)]
mod stored;
#[cfg(test)]
mod worked;
