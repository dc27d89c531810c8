// The tests of lrs_in_memory and lrs_in_memory_doors: the outside in memory.
mod gates;
mod parts;
