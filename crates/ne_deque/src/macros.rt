//! The macro that makes a queue of the items that are written out.

/// Makes a queue of the given items, from front to back, as in `nevd![alloc; 1, 2, 3]`.
///
/// It evaluates to a `Result`, which is `AllocError` if the allocation fails; the items are then
/// dropped. The expressions are evaluated from left to right, the allocator first, and none after a
/// failure. They may not contain `return`, `break` or `?`. Without an item the macro does not
/// compile.
///
/// ```
/// let three = nevd![alloc; 7, 5, 9]?; // [7, 5, 9]
/// let one = nevd![alloc; 7]?; // [7]
/// ```
#[macro_export]
macro_rules! nevd {
    ($alloc:expr; $head:expr $(,)?) => {
        $crate::NEVecDeque::new($alloc, $head)
    };
    ($alloc:expr; $head:expr, $($item:expr),+ $(,)?) => {
        'made: {
            let mut made = match $crate::NEVecDeque::new($alloc, $head) {
                Ok(made) => made,
                Err(refused) => break 'made Err(refused),
            };
            $(
                if let Err(refused) = made.push_back($item) {
                    break 'made Err(refused);
                }
            )+
            Ok(made)
        }
    };
}
