mod entries;
mod hostile;
mod segments;
