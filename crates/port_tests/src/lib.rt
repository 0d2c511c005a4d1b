// Tests over the public calls of the ports and of what stands behind them: streams, bells, gates, networks, back ends.
#![tactic(auto)]

#[cfg(test)]
mod adapters;
#[cfg(test)]
mod back_ends;
#[cfg(test)]
mod gates;
#[cfg(test)]
mod networks;
#[cfg(test)]
mod streams;
