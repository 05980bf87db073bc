// What bytes hold by places: laws, no code. The judges of every kind read their records by places.
#![tactic(auto)]
