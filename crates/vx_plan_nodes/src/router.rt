//! Hash routers.

use vx_rows_values::Value;

/// Sends each key to one of n consumers: any function of the route's name, the key and n.
pub trait Router {
    ghost use Rattle.std.specs.Prelude.{◌≡◌, ℕ, ◌<◌, ◌∷◌, [], List, length, map};
    ghost use Rattle.vx_rows_values.specs.Values.{Row, num};
    ghost use Rattle.vx_rows_values.specs.ValueView.{val_of};

    // The consumer of a key among n, by the route's name.
    ghost route_of: { Self → List ℕ → Row → ℕ → ℕ };

    /// The consumer of a key among n, counted from 0.
    fn route(&self, name: &str, key: &[Value], n: u32) -> u32
        requires { 0 < n }
        ensures { result ≡ route_of self.now name.now (map val_of key.now) n };

    /// The consumers of keys that are one number each, as `route` has them. A router that is faster for many keys at once, since it
    /// hashes the route's name once for all of them, has a body of its own.
    fn route_numbers(&self, name: &str, keys: &[i64], n: u32, consumers: &mut [u32])
        requires some { 0 < n }
        requires many { length consumers.old ≡ length keys.now }
        ensures { consumers.new ≡ map (λ k. route_of self.now name.now (num k ∷ []) n) keys.now }
    {
        for i in 0..keys.len() {
            let key = [Value::Int(keys[i])];
            consumers[i] = self.route(name, &key, n);
        }
    }

    // It is one of the n.
    ghost in_range: { (r : Self) (name : List ℕ) (key : Row) (n : ℕ) → 0 < n → route_of r name key n < n };
}
