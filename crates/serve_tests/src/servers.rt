mod ends;
mod ports;
mod rows;
mod same;
mod streams;
