mod limits;
mod made;
