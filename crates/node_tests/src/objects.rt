//! What nodes keep of objects, in one process: a test carries the letters between four nodes, or hands a node its own;
//! the requests that lead to a bank, and the letters that lead to an object.
mod closing;
mod led_bank;
mod led_object;
mod lone_calls;
mod lone_node;
mod nodes;
mod object_calls;
mod raising;
