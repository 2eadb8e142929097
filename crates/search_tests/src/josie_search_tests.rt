//! Tests what a search answers, reads and probes: worked runs of small lakes, and made lakes and a lake of real tables
//! compared with a plain model.
mod comparing;
mod lakes;
mod made;
mod model;
mod real;
mod worked;
