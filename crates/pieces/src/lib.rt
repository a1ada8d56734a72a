// What the second checker, its reader of dumps and the cases are written with: what is replied, the rows of the tables, places of columns and texts
// that need not be there, and bytes that are put into lent places.
#![tactic(auto)]

pub mod answers;
pub mod room;
pub mod rows;

// Element i of a column, 0 where there is none.
pub fn at<T: Copy + Default>(column: &[T], i: usize) -> T {
    column.get(i).copied().unwrap_or_default()
}

// The elements from an index on and below another one, none where there are not so many.
pub fn part<T>(elements: &[T], from: usize, to: usize) -> &[T] {
    elements.get(from..to).unwrap_or_default()
}

// The first elements, so many of them, or all where there are fewer.
pub fn first<T>(elements: &[T], count: usize) -> &[T] {
    elements.get(..count).unwrap_or(elements)
}
