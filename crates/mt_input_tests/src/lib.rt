//! Tests of what comes in and goes out: the values of rows, dates, bodies in JSON, filters and what they
//! match, requests in HTTP/1.1, and change sets in and out.
#![tactic(auto)]

#[cfg(test)]
mod filter;
#[cfg(test)]
mod http;
#[cfg(test)]
mod json;
#[cfg(test)]
mod matching;
#[cfg(test)]
mod mime;
#[cfg(test)]
mod model;
#[cfg(test)]
mod time;
