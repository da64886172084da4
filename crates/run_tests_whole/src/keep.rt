// What a run whose signals are delivered stands on outside, with real children: what no contract can say.
mod children;
mod given;
mod outside;
mod signals;
